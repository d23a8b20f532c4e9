//! Groups of hints.
ghost use Rattle.std.specs.Prelude.{◌≡◌, ◌≤◌, ◌==◌, [], take, drop, length, ◌&&◌, IfSome, unsigned_abs};
ghost use Rattle.lrat_check.specs.Hints.{is_negative};
ghost use Rattle.std.specs.List.{list_any};
ghost use Rattle.rat_check.specs.Groups.{parts_of, has_group, PassesGroup};

/// How many hints stand before the first negative one.
pub fn lead_len(hints: &[i64]) -> usize
    ensures within { result ≤ length hints.now }
    ensures lead { (parts_of hints.now).lead ≡ take result hints.now }
    ensures groups { (parts_of hints.now).groups ≡ (parts_of (drop result hints.now)).groups }
    ensures rest { (parts_of (drop result hints.now)).lead ≡ [] }
{
    for (at, hint) in hints.iter().enumerate() {
        if *hint < 0 {
            return at;
        }
    }
    hints.len()
}

/// Whether the hint begins a group about the clause with this id.
fn begins_group(hint: &i64, id: u64) -> bool
    ensures { result ≡ (is_negative hint.now && (unsigned_abs hint.now == id)) }
{
    *hint < 0 && hint.unsigned_abs() == id
}

fn any_begins(hints: &[i64], id: u64) -> bool
    ensures { result ≡ list_any (λ h. is_negative h && (unsigned_abs h == id)) hints.now }
{
    hints.iter().any(|hint| begins_group(hint, id))
}

/// Whether a group is about the clause with this id.
pub fn is_grouped(hints: &[i64], id: u64) -> bool
    ensures { result ≡ has_group (parts_of hints.now).groups id }
{
    any_begins(hints, id)
}

/// What stands behind the group that these hints begin with, if that is about the clause with this id.
pub fn behind_group(hints: &[i64], id: u64) -> Option<&[i64]>
    ensures { IfSome result (λ rest. PassesGroup hints.now id rest.now) }
{
    match hints.split_first() {
        Some((first, more)) if begins_group(first, id) => Some(&more[lead_len(more)..]),
        _ => None,
    }
}
