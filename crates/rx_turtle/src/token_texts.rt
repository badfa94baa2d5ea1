//! How tokens are written.
ghost use Rattle.std.specs.Prelude.{◌≡◌};
ghost use Rattle.std.specs.Str.{chars};
ghost use Rattle.rx_pieces.specs.Writable.{Pushes};
ghost use Rattle.rx_turtle.specs.Tokens.{token_seen, tokens_seen, words_text, shown_text, shown_texts};

use crate::shorts::Shorts;
use crate::terms::{push_key, push_literal, push_resource};
use crate::tokens::{Token, Words};
use rx_pieces::{Pieces, push};
use rx_ports::Sink;

/// Adds the tokens. Once the sink has failed, the rest isn't made.
pub(crate) fn push_tokens<S: Sink>(
    out: &mut Pieces,
    sink: &mut S,
    shorts: &Shorts,
    tokens: &[Token],
)
    ensures { Pushes S.held S.faults out.old sink.old out.new sink.new (shown_texts shorts.now (tokens_seen tokens.now)) }
{
    for i in 0..tokens.len() {
        if out.has_failed() {
            return;
        }
        push_token(out, sink, shorts, tokens[i]);
    }
}

fn push_token<S: Sink>(out: &mut Pieces, sink: &mut S, shorts: &Shorts, token: Token)
    ensures { Pushes S.held S.faults out.old sink.old out.new sink.new (shown_text shorts.now (token_seen token.entry)) }
{
    match token {
        Token::Fixed(words) => push_words(out, sink, words),
        Token::IriOrLabel(resource) => push_resource(out, sink, shorts, resource),
        Token::Verb(resource) => push_key(out, sink, shorts, resource),
        Token::Quoted(literal) => push_literal(out, sink, shorts, literal),
    }
}

fn push_words<S: Sink>(out: &mut Pieces, sink: &mut S, words: Words)
    ensures { Pushes S.held S.faults out.old sink.old out.new sink.new (words_text words) }
{
    push(out, sink, words_text(words));
}

fn words_text(words: Words) -> &'static str
    ensures { chars result.now ≡ words_text words }
{
    match words {
        Words::Space => " ",
        Words::Comma => " , ",
        Words::LineGap => " ;\n    ",
        Words::InsideGap => " ; ",
        Words::Open => "[ ",
        Words::Close => " ]",
        Words::OpenList => "( ",
        Words::CloseList => " )",
        Words::Empty => "[]",
        Words::Nil => "()",
        Words::End => " .\n",
    }
}
