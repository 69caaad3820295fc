// Links, read and written: the number of levels says how many bounds follow, and how many windows.
ghost use Rattle.std.specs.Prelude.{◌≡◌, ◌&&◌, cond, eqb, [], ◌∷◌, ◌++◌, ◌+◌, ◌*◌, ◌≤◌, ltb, length, get_or, take, replicate, Some, None};
ghost use Rattle.std.specs.List.{list_all};
ghost use Rattle.fields.specs.Numbers.{number, put_fields, none_lost};
ghost use Rattle.fields.specs.Formats.{read_kind, laid};
ghost use Rattle.traces.specs.Kinds.{LK as LK_kind, LE as LE_kind, LW as LW_kind, levels as widths, eight};

use super::{LE, LK, LW, Record};
use fields::Draft;
use fields::read::{one, two, whole_of};

// The eight bounds, or windows, of a link with so many levels, which start at a place: 0 past them.
fn eight(s: &[u8], at: usize, levels: usize) -> [u16; 8]
    requires { at ≤ 517 }
    ensures { result ≡ eight 0 (λ k. cond (ltb k levels) (number 2 s.now (at + 2 * k)) 0) }
{
    std::array::from_fn(|k| { if k < levels { two(s, at + 2 * k) } else { 0 } })
}

// A link's record whose last bounds, or windows, start at a place; none where it has no number of levels that is allowed.
fn levelled(s: &[u8], at: usize, levels: u8, what: Record) -> Option<(Record, usize)>
    requires { at ≤ 517 }
    ensures { result ≡ cond (LK_kind.allows levels) (cond (ltb (length s.now) (at + 2 * levels)) None (Some (what, at + 2 * levels))) None }
{
    match levels {
        1..=8 => whole_of(s, at + 2 * (levels as usize), what),
        _ => None,
    }
}

// An `LK`.
pub(crate) fn read(s: &[u8]) -> Option<(Record, usize)>
    ensures { result ≡ read_kind LK_kind (get_or s.now 2 0) s.now }
{
    let levels = one(s, 2);
    let link = Record::Link {
        levels,
        largest: two(s, 3),
        silence: one(s, 5),
        bounds: eight(s, 6, levels as usize),
    };
    levelled(s, 6, levels, link)
}

// An `LE`.
pub(crate) fn read_stand_by(s: &[u8]) -> Option<(Record, usize)>
    ensures { result ≡ read_kind LE_kind (get_or s.now 2 0) s.now }
{
    let levels = one(s, 2);
    let link = Record::LinkStandBy {
        levels,
        largest: two(s, 3),
        silence: one(s, 5),
        early: one(s, 6),
        bounds: eight(s, 7, levels as usize),
    };
    levelled(s, 7, levels, link)
}

// An `LW`: its windows stand behind its bounds.
pub(crate) fn read_windows(s: &[u8]) -> Option<(Record, usize)>
    ensures { result ≡ read_kind LW_kind (get_or s.now 2 0) s.now }
{
    let levels = one(s, 2);
    let n = levels as usize;
    let behind = 7 + 2 * n;
    let link = Record::LinkWindows {
        levels,
        largest: two(s, 3),
        silence: one(s, 5),
        early: one(s, 6),
        bounds: eight(s, 7, n),
        windows: eight(s, behind, n),
    };
    levelled(s, behind, levels, link)
}

// Whether all of some numbers are 0.
fn zeros(numbers: &[u16]) -> bool
    ensures { result ≡ list_all (λ number. eqb number 0) numbers.now }
{
    numbers.iter().all(|number| *number == 0)
}

// Whether a link is written as far as its bounds go, or its windows: its number of levels is in range, and those past them are all 0.
fn is_written(levels: u8, bounds: &[u16; 8]) -> bool
    ensures { result ≡ (LK_kind.allows levels && none_lost (widths levels) bounds.now) }
{
    (1..=8).contains(&levels) && zeros(&bounds[levels as usize..])
}

// The numbers of an `LE` behind its mark, and those of an `LW` before its windows.
fn settled(
    mark: [u8; 2],
    levels: u8,
    largest: u16,
    silence: u8,
    early: u8,
    bounds: &[u16; 8],
) -> Draft
    requires { levels ≤ 8 }
    ensures { result ≡ mark ++ put_fields (1 ∷ 2 ∷ 1 ∷ 1 ∷ replicate levels 2) (levels ∷ largest ∷ silence ∷ early ∷ take levels bounds.now) }
{
    Draft::headed(mark, levels)
        .two(largest)
        .one(silence)
        .one(early)
        .pairs(&bounds[..levels as usize])
}

// The bytes of an `LK`; none where it is not written.
pub(crate) fn draft(levels: u8, largest: u16, silence: u8, bounds: &[u16; 8]) -> Draft
    ensures { result ≡ laid (Some (LK_kind, levels ∷ largest ∷ silence ∷ bounds.now)) }
{
    if !is_written(levels, bounds) {
        return Draft::empty();
    }
    Draft::headed(LK, levels)
        .two(largest)
        .one(silence)
        .pairs(&bounds[..levels as usize])
}

// The bytes of an `LE`; none where it is not written.
pub(crate) fn draft_stand_by(
    levels: u8,
    largest: u16,
    silence: u8,
    early: u8,
    bounds: &[u16; 8],
) -> Draft
    ensures { result ≡ laid (Some (LE_kind, levels ∷ largest ∷ silence ∷ early ∷ bounds.now)) }
{
    if !is_written(levels, bounds) {
        return Draft::empty();
    }
    settled(LE, levels, largest, silence, early, bounds)
}

// The bytes of an `LW`; none where it is not written.
pub(crate) fn draft_windows(
    levels: u8,
    largest: u16,
    silence: u8,
    early: u8,
    bounds: &[u16; 8],
    windows: &[u16; 8],
) -> Draft
    ensures { result ≡ laid (Some (LW_kind, levels ∷ largest ∷ silence ∷ early ∷ bounds.now ++ windows.now)) }
{
    if !is_written(levels, bounds) {
        return Draft::empty();
    }
    if !is_written(levels, windows) {
        return Draft::empty();
    }
    settled(LW, levels, largest, silence, early, bounds).pairs(&windows[..levels as usize])
}
