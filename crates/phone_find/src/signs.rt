//! What the signs of the rules stand for.
ghost use Rattle.std.specs.Prelude.{◌≡◌};
ghost use Rattle.phone_find.specs.Sets.{is_absent, is_free, stands_for, stands_plainly};

use crate::sets::{
    is_capital, is_closing, is_date_mark, is_high_digit, is_joiner, is_low_digit, is_money,
    is_opening, is_space,
};
use phone_chars::chars::{is_letter, is_nd, is_plus, is_separator, same_fold};

/// Whether a sign of one kind of character stands for the character.
#[tactic(auto, unfolding(crate::specs::Sets::stands_plainly))]
fn stands_plainly(sign: char, c: char) -> bool
    ensures { result ≡ stands_plainly sign c }
{
    if sign == '9' {
        is_nd(c)
    } else if sign == '3' {
        is_low_digit(c)
    } else if sign == '5' {
        is_high_digit(c)
    } else if sign == '_' {
        is_space(c)
    } else if sign == '$' {
        is_money(c)
    } else if sign == '+' {
        is_plus(c)
    } else if sign == '<' {
        is_opening(c)
    } else if sign == '>' {
        is_closing(c)
    } else if sign == '|' {
        is_date_mark(c)
    } else {
        same_fold(sign, c)
    }
}

/// Whether a sign stands for the character.
#[tactic(auto, unfolding(crate::specs::Sets::stands_for))]
pub(crate) fn stands_for(sign: char, c: char) -> bool
    ensures { result ≡ stands_for sign c }
{
    if sign == '&' {
        is_joiner(c)
    } else if sign == '-' {
        is_separator(c)
    } else if sign == '%' {
        is_capital(c)
    } else if sign == '@' {
        is_letter(c)
    } else if sign == '!' {
        !is_nd(c)
    } else if sign == '?' {
        is_free(c)
    } else if sign == '*' {
        !is_letter(c)
    } else {
        stands_plainly(sign, c)
    }
}

/// Whether the character is neither a digit nor parts a date.
pub(crate) fn is_free(c: char) -> bool
    ensures { result ≡ is_free c }
{
    !(is_nd(c) || is_date_mark(c))
}

/// Whether a sign stands where the text has ended, too.
pub(crate) fn is_absent(sign: char) -> bool
    ensures { result ≡ is_absent sign }
{
    matches!(sign, '!' | '?' | '*')
}
