//! Forms that may stand at the front of a list, and entries of a list: each has the number of what
//! it names, and gives something to it.
ghost use Rattle.std.specs.Prelude.{◌≡◌, slice_set};
ghost use Rattle.expr_read.specs.Views.{Gives, Sees};
ghost use Rattle.lang_read.specs.Entries.{form_trees, behind_form, is_entered, new_entry, filled};

use expr_read::{
    Group, LangFault, LangWhy, Named, Seen, behind_head, fault, is_headed, place_of, seen_of,
};
use knox_sexpr::Tree;
use sqlite_items::Items;

/// What stands in a form of a word that may stand at the front.
pub(crate) fn form_trees<'a>(trees: &'a [Tree], word: &[u8]) -> Result<&'a [Tree], LangFault>
    ensures { Sees (λ x. x.now) result (form_trees word.now trees.now) }
{
    match trees.split_first() {
        Some((tree, _)) if is_headed(tree, word) => behind_head(tree, word),
        _ => Ok(&[]),
    }
}

/// What is left behind such a form.
pub(crate) fn behind_form<'a>(trees: &'a [Tree], word: &[u8]) -> &'a [Tree]
    ensures { result.now ≡ behind_form word.now trees.now }
{
    match trees.split_first() {
        Some((tree, rest)) if is_headed(tree, word) => rest,
        _ => trees,
    }
}

/// Does an entry name the thing of a number?
pub(crate) fn is_entered<T>(number: u32, entries: &[(u32, T)]) -> bool
    ensures { result ≡ is_entered number entries.now }
{
    for entry in entries {
        if entry.0 == number {
            return true;
        }
    }
    false
}

/// The word that a tree names in an entry, which no entry before names.
pub(crate) fn new_entry<T>(
    group: Group,
    tree: &Tree,
    names: &[Named],
    before: &[(u32, T)],
) -> Result<Seen, LangFault>
    ensures { Gives result (new_entry group names.now before.now tree.now) }
{
    let seen = seen_of(group, tree, names)?;
    if is_entered(seen.slot.number, before) {
        return Err(fault(place_of(tree), LangWhy::Twice));
    }
    Ok(seen)
}

/// Puts what an entry gives in the place of the thing that it names.
#[tactic(auto, using(std::proofs::lemmas::List::set_past))]
fn put<T: Drop>(things: &mut Items<T>, entry: (u32, T))
    ensures { things.new ≡ slice_set things.old entry.0 entry.1 }
{
    let number = entry.0 as usize;
    if number < things.len() {
        things.set(number, entry.1);
    }
}

/// The things, each of which gives way to what the first entry that names it gives.
pub(crate) fn filled<T: Drop>(things: Items<T>, entries: Items<(u32, T)>) -> Items<T>
    ensures { result ≡ filled entries things }
{
    let mut filled = things;
    let mut left = entries;
    while let Some(entry) = left.pop() {
        put(&mut filled, entry);
    }
    filled
}
