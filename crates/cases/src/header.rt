// The line that begins a case.
ghost use Rattle.std.specs.Prelude.{◌≤◌, ◌<◌, length, IfSome};

use case_file::number;
use specification::Setting;

// A case: the setting, how much is lent, the sheet, and the cases after it.
#[derive(Clone, Copy)]
pub(crate) struct Case<'a> {
    pub(crate) setting: Setting,
    pub(crate) output: u32,
    pub(crate) words: u32,
    pub(crate) sheet: &'a [u8],
    pub(crate) rest: &'a [u8],
}

// The first of the cases: none where its sheet ends beyond the input.
pub(crate) fn read(cases: &[u8]) -> Option<Case<'_>>
    ensures { IfSome result (λ case. length case.rest.now < length cases.now) }
{
    let (path, rest) = next_number(cases);
    let (budget, rest) = next_number(rest);
    let (skip, rest) = next_number(rest);
    let (output, rest) = next_number(rest);
    let (words, rest) = next_number(rest);
    let (size, rest) = next_number(rest);
    let (_, rest) = rest.split_first()?;
    let (sheet, rest) = rest.split_at_checked(size as usize)?;
    Some(Case {
        setting: Setting { path, budget, skip },
        output,
        words,
        sheet,
        // Behind the line feed, which the last case may lack.
        rest: rest.get(1..).unwrap_or(rest),
    })
}

// The first number, and what stands behind it.
fn next_number(text: &[u8]) -> (u32, &[u8])
    ensures { length result.1.now ≤ length text.now }
{
    let start = text
        .iter()
        .position(|b| b.is_ascii_digit())
        .unwrap_or(text.len());
    let text = &text[start..];
    let end = text
        .iter()
        .position(|b| !b.is_ascii_digit())
        .unwrap_or(text.len());
    let (digits, rest) = text.split_at(end);
    (number(digits), rest)
}
