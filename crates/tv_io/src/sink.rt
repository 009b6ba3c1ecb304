ghost use Rattle.std.specs.Prelude.{◌≡◌, ◌+◌, ◌<◌, ◌≤◌, ◌++◌, ◌∷◌, [], length, take, IfOk, OnOk, OnErr};
ghost use Rattle.tv_io.specs.Count.{Rose};
ghost use Rattle.tv_io.specs.State.{SinkState};
ghost use Rattle.tv_io.specs.Taken.{then_taken, IsWritten, IsCutOff};

use thiserror::Error;

/// A write failed.
#[derive(Clone, Copy, Debug, PartialEq, Eq, Error)]
#[error("the write failed")]
pub struct Failed;

/// An output that takes bytes.
pub trait Sink {
    // The bytes taken so far, the room that is left for certain, and the count of failed writes.
    ghost state: { Self → SinkState };

    /// Takes some prefix of the piece: at least a byte, where it has one.
    fn write(&mut self, piece: &[u8]) -> Result<usize, Failed>
        ensures count { IfOk result (λ n. (n ≤ length piece.now) × (0 < length piece.now → 0 < n)) }
        ensures took { IfOk result (λ n. (state self.new).taken ≡ then_taken (state self.old).taken (take n piece.now)) }
        ensures used { IfOk result (λ n. (state self.old).room ≤ (state self.new).room + n) }
        ensures counted { OnOk result ((state self.new).faults ≡ (state self.old).faults) }
        ensures failed { OnErr result (Rose (state self.old).faults (state self.new).faults) }
        ensures failed_took { OnErr result ((state self.new).taken ≡ (state self.old).taken) }
        // Only a piece that the sink has no room for is refused.
        ensures full { OnErr result (0 < length piece.now → (state self.old).room < length piece.now) }
        ensures faults_stay { (state self.old).faults ≤ (state self.new).faults };
}

/// Writes the whole piece. After an error the sink took some prefix of it.
pub fn write_whole<K: Sink>(out: &mut K, piece: &[u8]) -> Result<(), Failed>
    ensures written { OnOk result (IsWritten piece.now (K.state out.old) (K.state out.new)) }
    ensures cut_off { OnErr result (IsCutOff piece.now (K.state out.old) (K.state out.new)) }
    ensures faults_stay { (K.state out.old).faults ≤ (K.state out.new).faults }
{
    let mut done = 0;
    while done < piece.len() {
        done += out.write(&piece[done..])?;
    }
    Ok(())
}

/// Writes two pieces, the second after the first. After an error the sink took some prefix of both.
pub fn write_both<K: Sink>(out: &mut K, first: &[u8], second: &[u8]) -> Result<(), Failed>
    ensures written { OnOk result (IsWritten (first.now ++ second.now) (K.state out.old) (K.state out.new)) }
    ensures cut_off { OnErr result (IsCutOff (first.now ++ second.now) (K.state out.old) (K.state out.new)) }
    ensures faults_stay { (K.state out.old).faults ≤ (K.state out.new).faults }
{
    write_whole(out, first)?;
    write_whole(out, second)
}

/// Writes a line of two pieces. After an error the sink took some prefix of it.
pub fn write_line<K: Sink>(out: &mut K, first: &[u8], second: &[u8]) -> Result<(), Failed>
    ensures written { OnOk result (IsWritten (first.now ++ second.now ++ 10 ∷ []) (K.state out.old) (K.state out.new)) }
    ensures cut_off { OnErr result (IsCutOff (first.now ++ second.now ++ 10 ∷ []) (K.state out.old) (K.state out.new)) }
    ensures faults_stay { (K.state out.old).faults ≤ (K.state out.new).faults }
{
    write_both(out, first, second)?;
    write_whole(out, b"\n")
}
