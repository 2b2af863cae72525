/// A line that goes on, or the last one.
#[derive(Debug, Drop)]
pub enum Next<S, T> {
    More(S),
    Last(T),
}
