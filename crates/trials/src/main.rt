// Plays the script on standard input, which in the gate is the trial lines, the false friends and the other hand-checked cases.
#![tactic(auto)]

fn main(rt: HostRuntime) {
    script_play::play(&mut rt.stdin(), &mut rt.stdout(), &mut rt.stderr(), false);
}
