// Answers as numbers for C: the status is what an exported function answers, and the rest is written for its caller.
ghost use Rattle.std.specs.Prelude.{◌≡◌};
ghost use Rattle.answers.specs.Answer.{count_of};
ghost use Rattle.answer_numbers.specs.Numbers.{status_of, value_of};
ghost use Rattle.bozterrun.specs.Reply.{Detailed};

use answers::{Answer, Error};

// How many bytes of events were written, too.
pub fn sent(answer: Result<Answer, Error>, count: &mut usize) -> u32
    ensures status_is { result ≡ status_of answer }
    ensures count_is { count.new ≡ count_of answer }
{
    *count = answer_numbers::count(answer);
    answer_numbers::status(answer)
}

// An id besides.
pub fn gave(answer: Result<Answer, Error>, count: &mut usize, id: &mut u64) -> u32
    ensures status_is { result ≡ status_of answer }
    ensures count_is { count.new ≡ count_of answer }
    ensures id_is { id.new ≡ value_of answer }
{
    *id = answer_numbers::value(answer);
    sent(answer, count)
}

// What was asked for.
pub fn valued(answer: Result<Answer, Error>, value: &mut u64) -> u32
    ensures status_is { result ≡ status_of answer }
    ensures value_is { value.new ≡ value_of answer }
{
    *value = answer_numbers::value(answer);
    answer_numbers::status(answer)
}

// The interface and the version of refusal 2.
pub fn detailed(answer: Result<Answer, Error>, interface: &mut u32, version: &mut u32) -> u32
    ensures status_is { result ≡ status_of answer }
    ensures details { Detailed interface version answer }
{
    let refused = answer_numbers::refused_version(answer);
    *interface = refused.interface;
    *version = refused.version;
    answer_numbers::status(answer)
}
