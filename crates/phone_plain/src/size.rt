//! How large the automaton of a tree may get.
use regex_class::Class;
use regex_hir::Hir;

/// What a class of all digits counts, since `\d` may be one, which has so many ranges of characters
/// before it is cut to ASCII's.
const ALL_DIGITS: u32 = 70;

/// The ranges of characters and the bytes of a pattern after its counts are multiplied out; at most
/// `u32::MAX`.
pub(crate) fn size(hir: &Hir) -> u32 {
    match hir {
        Hir::Empty | Hir::Look(_) => 0,
        Hir::Literal(bytes) => u32::try_from(bytes.len()).unwrap_or(u32::MAX),
        Hir::Bytes(class) | Hir::Chars(class) => class_size(class),
        Hir::Repetition { min, max, sub, .. } => {
            let times = match max {
                Some(most) => *most,
                None => *min,
            };
            size(sub).saturating_mul(times.max(1))
        }
        Hir::Capture { sub, .. } => size(sub),
        Hir::Concat(subs) | Hir::Alternation(subs) => {
            let mut sum: u32 = 0;
            for sub in subs {
                sum = sum.saturating_add(size(sub));
            }
            sum
        }
    }
}

/// The ranges of a class.
fn class_size(class: &Class) -> u32 {
    if class.ranges.len() == 1 {
        let (first, last) = class.ranges[0];
        if first == 48 && last == 57 {
            return ALL_DIGITS;
        }
    }
    u32::try_from(class.ranges.len()).unwrap_or(u32::MAX)
}
