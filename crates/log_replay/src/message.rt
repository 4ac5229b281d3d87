//! What is said of a log that isn't good.

ghost use Rattle.std.specs.Prelude.{◌≡◌, ◌++◌, [], ◌∷◌, codes, string_bytes, IfOk, OnOk};
ghost use Rattle.std.specs.Fmt.{decimal};
ghost use Rattle.log_replay.specs.Messages.{word_of, bad_log_text};

use itoa::Buffer;
use replay_check::why::Why;
use std::alloc::{AllocError, Global};

/// The word for the cause.
fn word(why: Why) -> &'static str
    ensures { result.now ≡ word_of why }
{
    match why {
        Why::Form => "form",
        Why::Number => "number",
        Why::Rule => "rule",
        Why::Unfit => "unfit",
        Why::Base => "base",
        Why::Text => "text",
        Why::Count => "count",
        Why::Cut => "cut",
        Why::Endless => "endless",
    }
}

fn push_number(text: &mut String, number: u64) -> Result<(), AllocError>
    ensures { OnOk result (string_bytes text.new ≡ string_bytes text.old ++ decimal number) }
{
    let mut digits = Buffer::new();
    text.push_str(digits.format(number))
}

/// The line `badlog NUMBER WHY` with its newline. The only error is want of memory.
pub fn bad_log_message(alloc: Global, number: u64, why: Why) -> Result<String, AllocError>
    ensures { IfOk result (λ text. string_bytes text ≡ bad_log_text number why) }
{
    let mut text = String::from_str(alloc, "badlog ")?;
    push_number(&mut text, number)?;
    text.push_str(" ")?;
    text.push_str(word(why))?;
    text.push_str("\n")?;
    Ok(text)
}
