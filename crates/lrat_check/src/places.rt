//! The places of clauses, over plain lists: so many clauses of a formula, and the ids of the lemmas.
ghost use Rattle.std.specs.Prelude.{◌≡◌, ◌≤◌, ◌<◌, ◌+◌, ◌-◌, ◌^◌, ◌↔◌, ◌==◌, ◌||◌, ◌&&◌, ℕ, [], nat_lt, IfSome, IsTrue, length, slice_index, slice_index_or, true, false};
ghost use Rattle.std.specs.List.{list_all};
ghost use Rattle.lrat_check.specs.Register.{Rises, entries, place_in, place_of, live_place as live_at, is_new, revived, numbers_from};

/// Whether the id names a clause of the formula.
fn names_formula(formula: usize, id: u64) -> bool
    ensures { IsTrue result ↔ ((1 ≤ id) × (id ≤ formula)) }
{
    1 <= id && id <= formula as u64
}

/// The place of the clause that the id names, live or not.
pub fn place(formula: usize, ids: &[u64], id: u64) -> Option<usize>
    requires rising { Rises ids.now }
    requires room { formula + length ids.now < 2 ^ 63 }
    ensures { result ≡ place_of (entries formula ids.now []) id }
{
    if names_formula(formula, id) {
        return Some((id - 1) as usize);
    }
    match position(ids, id) {
        Some(at) => Some(formula + at),
        None => None,
    }
}

/// The place of a number among rising ones. It is tried first where it stands if they follow one another.
fn position(ids: &[u64], id: u64) -> Option<usize>
    requires { Rises ids.now }
    ensures value { result ≡ place_in ids.now id }
    ensures within { IfSome result (λ at. at < length ids.now) }
{
    let at = distance(ids, id);
    if stands_at(ids, at, id) {
        return Some(at);
    }
    match ids.binary_search(&id) {
        Ok(at) => Some(at),
        Err(_) => None,
    }
}

/// How far a number is above the first of these.
fn distance(ids: &[u64], id: u64) -> usize
    ensures { result ≡ id - slice_index ids.now 0 }
{
    match ids.first() {
        None => id as usize,
        Some(first) => id.saturating_sub(*first) as usize,
    }
}

fn stands_at(ids: &[u64], at: usize, id: u64) -> bool
    ensures { IsTrue result → (at < length ids.now) × (slice_index ids.now at ≡ id) }
{
    at < ids.len() && ids[at] == id
}

/// Whether the id is above every id of a clause.
pub fn is_above(formula: usize, ids: &[u64], id: u64) -> bool
    requires { Rises ids.now }
    ensures { result ≡ is_new (entries formula ids.now []) id }
{
    is_past_formula(formula, id) && is_past_lemmas(ids, id)
}

fn is_past_formula(formula: usize, id: u64) -> bool
    ensures { result ≡ list_all (λ i. nat_lt i id) (numbers_from 1 formula) }
{
    formula == 0 || (formula as u64) < id
}

fn is_past_lemmas(ids: &[u64], id: u64) -> bool
    requires { Rises ids.now }
    ensures { result ≡ list_all (λ i. nat_lt i id) ids.now }
{
    match ids.split_last() {
        None => true,
        Some((last, _)) => *last < id,
    }
}

/// The place of the clause that the id names, if it is live.
pub fn live_place(formula: usize, ids: &[u64], live: &[bool], id: u64) -> Option<usize>
    requires rising { Rises ids.now }
    requires room { formula + length ids.now < 2 ^ 63 }
    ensures value { result ≡ live_at (entries formula ids.now live.now) id }
    ensures live { IfSome result (λ p. slice_index_or live.now p false ≡ true) }
{
    match place(formula, ids, id) {
        None => None,
        Some(place) => {
            if is_set(live, place) {
                Some(place)
            } else {
                None
            }
        }
    }
}

fn is_set(live: &[bool], place: usize) -> bool
    ensures { result ≡ slice_index_or live.now place false }
{
    live.get(place).copied().unwrap_or(false)
}
