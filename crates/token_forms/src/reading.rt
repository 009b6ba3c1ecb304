ghost use Rattle.token_forms.specs.Laws.{ReadsWhatIsSpelled, StopsWhereUnfit, StopsWherePast, EndsWhereWhole};

/// What a form of tokens spells.
pub trait Spelled {
    ghost use Rattle.token_forms.specs.Form.{Form, never};

    // The form that spells these values.
    ghost form: { Form never Self };
}

/// Every form is read as it is spelled: what is read is spelled, what is spelled is read, a stop is at
/// the first token that isn't allowed, for the form's reason, or at the first that passes a limit,
/// and no token is allowed after what is whole. It does nothing.
pub fn is_read_as_spelled<X: Spelled>()
    ensures spelled { ReadsWhatIsSpelled X.form }
    ensures unfit { StopsWhereUnfit X.form }
    ensures past { StopsWherePast X.form }
    ensures whole { EndsWhereWhole X.form }
{}
