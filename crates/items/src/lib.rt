// The items of a pass: what is due, in the order in which a poll acts on it (machine.rs, `poll`), and what earlier
// passes listed. Both lists are arrays with a length, since the link has no heap. They are not
// the kit's `ArrayVec`, which fills its free places with a default of what it holds: no item is one.
#![tactic(auto)]

ghost use Rattle.std.specs.Prelude.{◌≡◌, ◌≤◌, ◌+◌, [], ◌∷◌, ◌++◌, map, take, length, ltb, eqb};
ghost use Rattle.std.specs.List.{position_from};
ghost use Rattle.time.specs.Pick.{pick};
ghost use Rattle.items.specs.Items.{item, before, insert, listed_in, untimed};
ghost use Rattle.items.specs.Arrays.{most, most_listed, item_of, due_of, place_for};

use numbers::numbered::Numbered;
use std::marker::Model;

// The most items of a pass: 32 candidates and eight more.
const MOST: usize = 40;

// What three passes list at most.
const MOST_LISTED: usize = 120;

// What is due: the number of a kind, and a tag or a sequence number, 0 for a kind that has none. It holds a number and
// no case, since the lists take a number past the last kind as one of its own.
#[derive(Clone, Copy, PartialEq, Eq)]
pub struct Due {
    pub kind: u64,
    pub key: u64,
}

// What is due, and when.
#[derive(Clone, Copy)]
pub struct Item {
    pub at: u64,
    pub due: Due,
}

impl Item {
    // A thing of that kind and key, due at that instant.
    pub fn new<K: Numbered>(at: u64, kind: K, key: u64) -> Item
        ensures { item_of result ≡ item at (K.number_of kind) key }
    {
        let kind = kind.to_number();
        Item {
            at,
            due: Due { kind, key },
        }
    }

    // Whether it comes before another: by instant, then by kind, then by key. Written out, since a derived order would
    // go by the order in which the fields and the kinds are declared.
    pub fn is_before(self, other: Item) -> bool
        ensures { result ≡ before (item_of self) (item_of other) }
    {
        let own = (self.at, self.due.kind, self.due.key);
        own < (other.at, other.due.kind, other.due.key)
    }
}

// The first item that an item comes before.
fn first_after(items: &[Item], item: Item) -> Option<usize>
    ensures { result ≡ position_from (λ x. before (item_of item) (item_of x)) 0 items.now }
{
    items.iter().position(|x| item.is_before(*x))
}

// Where an item is put: before the first that it comes before.
fn place(items: &[Item], item: Item) -> usize
    ensures { result ≡ place_for (item_of item) (map item_of items.now) }
{
    first_after(items, item).unwrap_or(items.len())
}

// The items of a pass, in order: 40 at most.
#[derive(Drop)]
pub struct Items {
    items: [Item; MOST],
    len: usize,
}

// Clauses see the items as a list.
impl Model for Items {
    ghost use Rattle.std.specs.Prelude.{◌≡◌, ◌≤◌, List, map, take, length};
    ghost use Rattle.items.specs.Items.{Item};
    ghost use Rattle.items.specs.Arrays.{item_of, most};

    ghost Value = { List Item };

    ghost view = { λ a. map item_of (take a.len a.items) };

    ghost invariant = { λ a. (a.len ≤ most) × (length a.items ≡ most) };
}

impl Items {
    // No items.
    pub fn new() -> Items
        ensures { result ≡ [] }
    {
        Items::of(&[])
    }

    // The first 40 of some items, in the order in which they stand.
    pub fn of(items: &[Item]) -> Items
        ensures { result ≡ take most (map item_of items.now) }
    {
        let mut first = [Item::new(0, 0, 0); MOST];
        let len = items.len().min(MOST);
        first[..len].copy_from_slice(&items[..len]);
        Items { items: first, len }
    }

    // How many there are.
    pub fn len(&self) -> usize
        ensures value { result ≡ length self.now }
        ensures room { result ≤ most }
    {
        self.len
    }

    // Whether there are none.
    pub fn is_empty(&self) -> bool
        ensures { result ≡ eqb (length self.now) 0 }
    {
        self.len == 0
    }

    // The items in order.
    pub fn as_slice(&self) -> &[Item]
        ensures value { map item_of result.now ≡ self.now }
        ensures room { length result.now ≤ most }
    {
        &self.items[..self.len]
    }

    // An item is put in its place. A pass has 40 items at most, and where there are 40 nothing changes.
    pub fn insert(&mut self, item: Item)
        ensures { self.new ≡ pick (ltb (length self.old) most) (insert (item_of item) self.old) self.old }
    {
        if self.len < MOST {
            let i = place(&self.items[..self.len], item);
            self.items.copy_within(i..self.len, i + 1);
            self.items[i] = item;
            self.len += 1;
        }
    }
}

// What earlier passes listed, without the instants: 120 at most. It is no generic list with `Items`: the two share
// no more than `new`, `of` and `len`.
#[derive(Drop)]
pub struct Listed {
    names: [Due; MOST_LISTED],
    len: usize,
}

// Clauses see the listed items as a list.
impl Model for Listed {
    ghost use Rattle.std.specs.Prelude.{◌≡◌, ◌≤◌, List, map, take, length};
    ghost use Rattle.items.specs.Items.{Item};
    ghost use Rattle.items.specs.Arrays.{due_of, most_listed};

    ghost Value = { List Item };

    ghost view = { λ a. map due_of (take a.len a.names) };

    ghost invariant = { λ a. (a.len ≤ most_listed) × (length a.names ≡ most_listed) };
}

impl Listed {
    // Nothing listed yet.
    pub fn new() -> Listed
        ensures { result ≡ [] }
    {
        Listed::of(&[])
    }

    // The first 120 of some kinds and keys, in the order in which they stand.
    pub fn of(names: &[Due]) -> Listed
        ensures { result ≡ take most_listed (map due_of names.now) }
    {
        let mut first = [Due { kind: 0, key: 0 }; MOST_LISTED];
        let len = names.len().min(MOST_LISTED);
        first[..len].copy_from_slice(&names[..len]);
        Listed { names: first, len }
    }

    // How many are listed.
    pub fn len(&self) -> usize
        ensures value { result ≡ length self.now }
        ensures room { result ≤ most_listed }
    {
        self.len
    }

    // Whether an earlier pass listed that kind and key.
    pub fn contains(&self, due: Due) -> bool
        ensures { result ≡ listed_in (due_of due) self.now }
    {
        self.names[..self.len].contains(&due)
    }

    // A kind and a key are put after those listed. Three passes list 120 at most, and where there are 120 nothing
    // changes.
    pub fn note(&mut self, due: Due)
        ensures { self.new ≡ pick (ltb (length self.old) most_listed) (self.old ++ (due_of due ∷ [])) self.old }
    {
        if self.len < MOST_LISTED {
            self.names[self.len] = due;
            self.len += 1;
        }
    }

    // The kinds and keys of a pass's items are put after those listed before.
    pub fn extend(&mut self, items: &Items)
        ensures { length self.old + length items.now ≤ most_listed → self.new ≡ self.old ++ map untimed items.now }
    {
        for x in items.as_slice() {
            self.note(x.due);
        }
    }
}
