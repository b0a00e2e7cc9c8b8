ghost use Rattle.std.specs.Prelude.{◌≡◌, ◌+◌, ◌≤◌, length, map, IfOk};
ghost use Rattle.std.specs.Option.{option_and_then, option_map};
ghost use Rattle.guest_asm.specs.Line.{cut, labelled, line_of, lines_of};
ghost use Rattle.guest_asm.specs.Parts.{parts_value};

use crate::text::{around, code_of, cut, is_identifier, place_of, trim};
use std::alloc::{AllocError, Global};

/// A line's label, where it has one, and its statement, which is empty where it has none.
#[derive(Clone, Copy)]
pub(crate) struct LineParts<'a> {
    pub(crate) label: Option<&'a [u8]>,
    pub(crate) statement: &'a [u8],
}

/// The lines of a text, without their line feeds.
#[tactic(auto, using(crate::proofs::Pieces::lines_more, crate::proofs::Pieces::lines_ended), unfolding(crate::specs::Line::lines_of))]
pub(crate) fn lines_of<'a>(alloc: Global, text: &'a [u8]) -> Result<Vec<&'a [u8]>, AllocError>
    ensures lines { IfOk result (λ lines. map (λ line. line.now) lines.items ≡ lines_of text.now) }
    ensures few { IfOk result (λ lines. length lines.items ≤ length text.now + 1) }
{
    let mut lines = Vec::new(alloc);
    let mut rest = text;
    while let Some(i) = place_of(rest, b'\n') {
        let (line, behind) = around(rest, i);
        lines.push(line)?;
        rest = behind;
    }
    lines.push(rest)?;
    Ok(lines)
}

/// The line that a text without line feeds is.
#[tactic(auto, unfolding(crate::specs::Line::line_of))]
pub(crate) fn line_of<'a>(text: &'a [u8]) -> LineParts<'a>
    ensures { parts_value result ≡ line_of text.now }
{
    let code = code_of(text);
    match labelled(code) {
        Some(line) => line,
        None => LineParts {
            label: None,
            statement: trim(code),
        },
    }
}

// The line, where it has a label.
fn labelled<'a>(code: &'a [u8]) -> Option<LineParts<'a>>
    ensures { option_map parts_value result ≡ option_and_then labelled (cut 58 code.now) }
{
    let (name, statement) = cut(code, b':')?;
    if !is_identifier(name) {
        return None;
    }
    Some(LineParts {
        label: Some(name),
        statement,
    })
}
