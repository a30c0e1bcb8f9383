// The instructions' names, and words that are compared with a name.
ghost use Rattle.std.specs.Prelude.{◌≡◌, ◌+◌, ◌^◌, ◌≤◌, ◌<◌, length, option_map};
ghost use Rattle.std.specs.List.{position};
ghost use Rattle.model.specs.Load.{same_word, lookup};
ghost use Rattle.loader.specs.Keys.{key_of, key_table, Slots, place_from, Finds};

use text::bytes::upper;

// The keys of the names from number 5, IN, on: each name's bytes in hexadecimal, behind a 1. The four names before it are longer.
const KEYS: [u64; 51] = [
    0x1494E,
    0x14F5554,
    0x14D4F56,
    0x1534554,
    0x150555348,
    0x1504F50,
    0x153455454,
    0x153455446,
    0x14E4F54,
    0x1414E44,
    0x14F52,
    0x1584F52,
    0x14E414E44,
    0x14E4F52,
    0x14E4547,
    0x1414253,
    0x1414444,
    0x1535542,
    0x14D554C,
    0x1444956,
    0x14D4F44,
    0x1494E43,
    0x1444543,
    0x1434D504551,
    0x1434D504E4551,
    0x1434D504C54,
    0x1434D504754,
    0x1434D504C45,
    0x1434D504745,
    0x14A4D50,
    0x14A4D5054,
    0x14A4D5046,
    0x14A4D504551,
    0x14A4D504E4551,
    0x14A4D504C54,
    0x14A4D504754,
    0x14A4D504C45,
    0x14A4D504745,
    0x1534B4950,
    0x14E4F50,
    0x1524E4F54,
    0x152414E44,
    0x1524F52,
    0x152584F52,
    0x1524E414E44,
    0x1524E4F52,
    0x152534C,
    0x141534C,
    0x1525352,
    0x1415352,
    0x144495652,
];

// The place of each key among the keys, at the remainder that `find_key` takes of it; no two keys have the same.
const SLOTS: [u8; 119] = [
    0, 43, 0, 0, 26, 0, 37, 47, 21, 0, 50, 0, 0, 49, 0, 0, 0, 0, 17, 0, 0, 35, 0, 0, 0, 10, 0, 0,
    9, 0, 0, 0, 0, 0, 0, 0, 12, 31, 0, 46, 0, 0, 39, 0, 13, 48, 8, 0, 11, 0, 0, 30, 4, 19, 0, 0, 0,
    0, 0, 0, 0, 0, 0, 0, 0, 5, 33, 15, 0, 0, 0, 0, 18, 0, 0, 29, 0, 20, 0, 27, 0, 22, 0, 0, 23, 0,
    0, 0, 16, 0, 0, 14, 42, 0, 25, 2, 36, 24, 7, 44, 41, 32, 0, 0, 38, 1, 0, 3, 28, 0, 0, 34, 6, 0,
    45, 0, 40, 0, 0,
];

// The names that are too long for a key, in the order of their numbers from 1 on.
const LONG: [&[u8]; 4] = [
    b"CLEAR_REG",
    b"CLEAR_DATA_MEM",
    b"DUMP_REG",
    b"DUMP_DATA_MEM",
];

// The word is this name. Only the word is taken in capitals, as the definition has it, so that no method that ignores the case of both would do.
pub fn same_word(w: &[u8], name: &[u8]) -> bool
    ensures { result ≡ same_word w.now name.now }
{
    w.len() == name.len() && w.iter().zip(name).all(|(b, &n)| upper(*b) == n)
}

// The key of a word of at most seven bytes.
fn word_key(w: &[u8]) -> u64
    requires { length w.now ≤ 7 }
    ensures { result ≡ key_of w.now }
{
    let mut key: u64 = 1;
    for &b in w {
        key = key * 256 + u64::from(upper(b));
    }
    key
}

// The number of the word among names that are numbered from `first` on.
pub(crate) fn find_word(w: &[u8], names: &[&[u8]], first: u32) -> Option<u32>
    requires { first + length names.now < 2 ^ 32 }
    ensures { result ≡ option_map (λ i. first + i) (position (λ name. same_word w.now name.now) names.now) }
{
    let i = names.iter().position(|name| same_word(w, name))?;
    Some(first + i as u32)
}

// The number of the instruction with a name of eight bytes or more.
fn find_long(w: &[u8]) -> Option<u32>
    requires { 8 ≤ length w.now }
    ensures { Finds result (lookup w.now) }
{
    find_word(w, &LONG, 1)
}

// The names of the instructions, which a call makes once and lends. Arrays and no map: there is no heap, and one comparison at a key's remainder finds a name.
#[derive(Drop)]
pub struct NameTable {
    pub keys: [u64; 51],
    pub slots: [u8; 119],
    pub ghost keys_value: { keys ≡ key_table },
    pub ghost slots_value: { Slots slots },
}

impl NameTable {
    pub fn new() -> Self {
        NameTable {
            keys: KEYS,
            slots: SLOTS,
        }
    }

    // The number of the instruction with this key. Only one place can have it.
    fn find_key(&self, key: u64) -> Option<u32>
        ensures { Finds result (place_from 5 key key_table) }
    {
        let i = self.slots[(key % 9284 % 119) as usize];
        match self.keys.get(usize::from(i)) {
            Some(&k) if k == key => Some(5 + u32::from(i)),
            _ => None,
        }
    }

    // The number of the instruction that the word names.
    pub fn find(&self, w: &[u8]) -> Option<u32>
        ensures { Finds result (lookup w.now) }
    {
        if 7 < w.len() {
            return find_long(w);
        }
        self.find_key(word_key(w))
    }
}
