/// What each pair passes before it is judged, by its number among the judged pairs, from 0. A gate
/// promises nothing; a test sees by it when, and beside which others, a pair is judged.
pub trait Gate: Sync {
    fn pass(&self, pair: u64);
}

/// A gate that lets every pair pass.
pub struct OpenGate;

impl Gate for OpenGate {
    fn pass(&self, _pair: u64) {}
}
