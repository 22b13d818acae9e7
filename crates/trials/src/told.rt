use units::refusal::Refusal;

// What a call answers, with a refusal as its number and place.
pub(crate) fn told<T>(answer: Result<T, Refusal>) -> Result<T, (u32, usize)> {
    answer.map_err(|e| (e.number(), e.place()))
}
