//! The words of reasons.

ghost use Rattle.std.specs.Prelude.{◌≡◌};
ghost use Rattle.trace_text.specs.TraceText.{flag_text, reason_text};

use run_trace::{Flag, Reason};

fn flag_words(flag: Flag) -> &'static [u8]
    ensures { result.now ≡ flag_text flag }
{
    match flag {
        Flag::NoUnsignedWrap => b"nuw",
        Flag::NoSignedWrap => b"nsw",
        Flag::Exact => b"exact",
        Flag::Disjoint => b"disjoint",
        Flag::NonNegative => b"nneg",
        Flag::SameSign => b"samesign",
        Flag::Inbounds => b"inbounds",
    }
}

/// Why a step is undefined behaviour, gives poison, or ends the run.
pub fn reason_words(reason: Reason) -> &'static [u8]
    ensures { result.now ≡ reason_text reason }
{
    match reason {
        Reason::Flag(flag) => flag_words(flag),
        Reason::ShiftPastWidth => b"the amount is the width or more",
        Reason::PoisonOperand => b"an operand is written poison or undef",
        Reason::LoadedPoison => b"the bytes are no value of the type",
        Reason::NoEntry => b"no entry for the block that was left",
        Reason::NullArgument => b"a null argument of a nonnull parameter",
        Reason::PoisonArgument => {
            b"undefined behaviour: a poison argument of a noundef parameter"
        }
        Reason::DivisionByZero => b"undefined behaviour: a division by zero",
        Reason::PoisonDivisor => b"undefined behaviour: a division by poison",
        Reason::DivisionOverflow => b"undefined behaviour: the least number divided by -1",
        Reason::PoisonDividend => b"undefined behaviour: poison divided by -1",
        Reason::PoisonAddress => b"undefined behaviour: the address is poison",
        Reason::NullAddress => b"undefined behaviour: an access of null",
        Reason::DeadBlock => b"undefined behaviour: there is no such block",
        Reason::PastEnd => b"undefined behaviour: past the end of the block",
        Reason::Misaligned => b"undefined behaviour: the address or the block is not aligned so",
        Reason::PoisonCondition => b"undefined behaviour: a branch on poison",
        Reason::Unreachable => b"undefined behaviour: unreachable",
        Reason::PoisonReturn => b"undefined behaviour: a noundef return of poison",
        Reason::TooManyJumps => b"one backward jump more than the bound allows",
        Reason::MissingBlock => b"undefined behaviour: no block has the label",
    }
}
