ghost use Rattle.token_text.specs.Laws.{TextsAreLexed};

/// The text of tokens that stay apart is lexed to these tokens. It does nothing.
pub fn texts_are_lexed()
    ensures { TextsAreLexed }
{}
