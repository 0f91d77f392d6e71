// The words that a program of the benchmark is called with.
// The number that the first n bytes of a word are: at most nine digits count.
pub fn number(word: &[u8], n: usize) -> u64 {
    word.iter().take(n.min(9)).fold(
        0,
        |total, digit| 10 * (total % 1000000000) + u64::from(*digit % 16),
    )
}
