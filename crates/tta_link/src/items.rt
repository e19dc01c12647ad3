//! One item in its instruction.

ghost use Rattle.std.specs.Prelude.{◌≡◌, ◌<◌, ◌^◌, true, length, slice_set, Some};
ghost use Rattle.tta_moves.specs.Meaning.{linked};
ghost use Rattle.tta_link.specs.Linked.{long_word};
ghost use Rattle.tta_link.specs.Blocks.{source_within, value_within, slot_within, is_within};
ghost use Rattle.tta_link.specs.Put.{with_item, is_word_in};

use tta_arch::Source;
use tta_code::{Instruction, Long, Move};
use tta_list::Items;
use tta_moves::{Item, ItemSource, LongValue, PlacedItem, Slot};

/// A source in code, where the address of a block is the word at which the block begins.
fn linked(starts: &[u32], src: ItemSource) -> Source
    requires { source_within (length starts.now) src ≡ true }
    ensures { result ≡ linked starts.now src }
{
    match src {
        ItemSource::Port(port) => port,
        ItemSource::Address(block) => Source::Value(starts[block as usize]),
    }
}

/// The word of a long immediate.
fn long_word(starts: &[u32], value: LongValue) -> u32
    requires { value_within (length starts.now) value ≡ true }
    ensures value { result ≡ long_word starts.now value }
    ensures word { result < 2 ^ 32 }
{
    match value {
        LongValue::Word(word) => word,
        LongValue::Address(block) => starts[block as usize],
    }
}

/// Puts a move onto its bus.
fn put_move(moves: &mut Items<Option<Move>>, bus: u8, v: Move)
    requires { bus < length moves.old }
    ensures { moves.new ≡ slice_set moves.old bus (Some v) }
{
    *moves.at_mut(usize::from(bus)) = Some(v);
}

/// Puts an item onto its slot of an instruction.
pub fn put(word: &mut Instruction, starts: &[u32], x: PlacedItem)
    requires slot { slot_within (length word.old.moves) x.slot ≡ true }
    requires addresses { is_within (length starts.now) x.item ≡ true }
    ensures value { word.new ≡ with_item starts.now word.old x.slot x.item }
    ensures word { is_word_in word.old ≡ true → is_word_in word.new ≡ true }
{
    match (x.slot, x.item) {
        (Slot::Bus(bus), Item::Move { guard, src, dst }) => {
            let src = linked(starts, src);
            put_move(&mut word.moves, bus, Move { guard, src, dst });
        }
        (Slot::Template(template), Item::Long { value, .. }) => {
            let value = long_word(starts, value);
            word.long = Some(Long { template, value });
        }
        _ => {}
    }
}
