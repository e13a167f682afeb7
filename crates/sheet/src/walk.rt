// The stamps of a list's events as they stand in the work buffers, handed out event by event.
ghost use Rattle.std.specs.Prelude.{◌≡◌, ◌+◌, ◌*◌, ◌≤◌, length};
ghost use Rattle.std.specs.Int.Count.{ones};
ghost use Rattle.paper.specs.Buffers.{values_begin};
ghost use Rattle.paper.specs.Event.{how_many};

use super::stamps::ones_in;
use clock::event::SEND;

// A stamp: its mask, and a value for each one of it.
#[derive(Clone, Copy)]
pub struct Stamp<'a> {
    pub mask: u32,
    pub values: &'a [u16],
    pub ghost carried: { length values.now ≡ ones mask },
}

impl<'a> Stamp<'a> {
    // How many bytes it takes: 4 for the mask, 2 for each value; `piece_size` promises it of a mask alone.
    pub fn size(self) -> usize
        ensures { (result ≡ 4 + 2 * length self.entry.values.now) × (result ≤ 68) }
    {
        4 + 2 * self.values.len()
    }
}

// The events that are left of a list, with a mask for each and the values of all.
#[derive(Clone, Copy)]
pub struct Stamps<'a> {
    list: &'a [u8],
    masks: &'a [u32],
    values: &'a [u16],
    ghost each_mask: { how_many list.now ≤ length masks.now },
    ghost all_values: { values_begin masks.now (how_many list.now) ≤ length values.now },
}

impl<'a> Stamps<'a> {
    ghost use Rattle.sheet.specs.Slots.{slot_pieces, Slots};
    ghost use Rattle.sheet.specs.Held.{left};

    // All events of a list.
    pub fn of(list: &'a [u8], masks: &'a [u32], values: &'a [u16]) -> Stamps<'a>
        requires { Slots list.now masks.now values.now }
        ensures lent { (result.list.now ≡ list.now) × (result.masks.now ≡ masks.now) × (result.values.now ≡ values.now) }
        ensures pieces { left result ≡ slot_pieces list.now masks.now values.now }
    {
        Stamps {
            list,
            masks,
            values,
        }
    }
}

// A send has a stamp, another event none.
impl<'a> Iterator for Stamps<'a> {
    ghost use Rattle.std.specs.Iterator.{YieldsFirstBy, item_count};
    ghost use Rattle.sheet.specs.Held.{piece_of, left};

    type Item = Option<Stamp<'a>>;

    ghost next_gives = { YieldsFirstBy piece_of left };

    ghost remaining = { item_count left };

    fn next(&mut self) -> Option<Option<Stamp<'a>>> {
        if self.list.len() < 8 {
            return None;
        }
        let kind = self.list[0];
        let mask = self.masks[0];
        let (values, behind) = self.values.split_at(ones_in(mask));
        self.list = &self.list[8..];
        self.masks = &self.masks[1..];
        self.values = behind;
        if kind != SEND {
            return Some(None);
        }
        Some(Some(Stamp { mask, values }))
    }
}
