//! What can be asked of rows of tokens, names, docs and places.

use crate::tokens::texts::Question;

/// What is asked of the rows behind a line `= ..`.
#[derive(Clone, Copy)]
pub enum TokensAsked {
    /// Something of each row's text.
    Text(Question),
    /// `= keys`: whether the two names of a row `NAME ~ NAME` are too alike for one scope.
    Keys,
    /// `= values under names`: a row `insert NAME NUMBER` answers what stood there, `get NAME` what does, and so does
    /// `get-by-clone NAME`, by a clone of the name's key.
    Found,
    /// `= docs`: what the comments of a row `COMMENT ~ ..` say together; `no comments` stands for none.
    Docs,
    /// `= places`: a row `push PATH TEXT` answers where the text begins, `place START..END` where a span is.
    Places,
}

/// What the words behind `= ` ask.
pub fn tokens_asked_by(words: &str) -> Option<TokensAsked> {
    match words {
        "keys" => Some(TokensAsked::Keys),
        "values under names" => Some(TokensAsked::Found),
        "docs" => Some(TokensAsked::Docs),
        "places" => Some(TokensAsked::Places),
        _ => Some(TokensAsked::Text(question_by(words)?)),
    }
}

/// What words ask of each text.
fn question_by(words: &str) -> Option<Question> {
    match words {
        "tokens" => Some(Question::Tokens { offset: 0 }),
        "count" => Some(Question::Count),
        "version" => Some(Question::Version),
        "identifier" => Some(Question::Identifier),
        _ => {
            let offset = words.strip_prefix("tokens at ")?.parse().ok()?;
            Some(Question::Tokens { offset })
        }
    }
}
