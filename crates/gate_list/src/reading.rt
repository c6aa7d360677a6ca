// The bytes of a list. Only here does code know the layout of a record.
ghost use Rattle.std.specs.Prelude.{◌≡◌, ◌<◌};
ghost use Rattle.gate_list.specs.Lists.{record_size, record_count, byte_of, list_width, next_of};

pub(crate) const RECORD_SIZE: usize = 6;

pub(crate) const MOST_RECORDS: usize = 4096;

pub(crate) const LONGEST_LIST: usize = RECORD_SIZE * MOST_RECORDS;

#[tactic(auto, unfolding(crate::specs::Lists::record_count))]
pub(crate) fn record_count(list: &[u8]) -> usize
    ensures { result ≡ record_count list.now }
{
    list.len() / RECORD_SIZE
}

// The width that the head names; bytes too few for it are read as width 0, as `list_width` has it.
#[tactic(auto, unfolding(crate::specs::Lists::list_width, crate::specs::Lists::byte_of))]
pub(crate) fn width(list: &[u8]) -> usize
    ensures { result ≡ list_width list.now }
{
    list.get(1).map_or(0, |width| usize::from(*width))
}

// Record i of a list.
#[derive(Clone, Copy)]
pub(crate) struct Record<'a> {
    pub(crate) list: &'a [u8],
    pub(crate) i: usize,
    ghost own: { i < record_count list.now },
}

impl<'a> Record<'a> {
    // By offset, as `byte_of`, the one definition of the layout, is.
    #[tactic(auto, unfolding(crate::specs::Lists::record_count, crate::specs::Lists::byte_of))]
    fn byte(&self, k: usize) -> u8
        requires { k < record_size }
        ensures { result ≡ byte_of self.now.list.now self.now.i k }
    {
        self.list[RECORD_SIZE * self.i + k]
    }

    pub(crate) fn gate(&self) -> u8
        ensures { result ≡ byte_of self.now.list.now self.now.i 0 }
    {
        self.byte(0)
    }

    pub(crate) fn first(&self) -> u8
        ensures { result ≡ byte_of self.now.list.now self.now.i 1 }
    {
        self.byte(1)
    }

    // 0 for a one-qubit gate.
    pub(crate) fn second(&self) -> u8
        ensures { result ≡ byte_of self.now.list.now self.now.i 2 }
    {
        self.byte(2)
    }

    // The byte that is 0 in each record.
    pub(crate) fn fixed(&self) -> u8
        ensures { result ≡ byte_of self.now.list.now self.now.i 3 }
    {
        self.byte(3)
    }

    // The record that this one links to.
    #[tactic(auto, unfolding(crate::specs::Lists::next_of))]
    pub(crate) fn next(&self) -> usize
        ensures { result ≡ next_of self.now.list.now self.now.i }
    {
        usize::from(u16::from_le_bytes([self.byte(4), self.byte(5)]))
    }
}
