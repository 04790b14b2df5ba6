// The map of used question numbers (document 01, "Rows"). Which question gets which number is in specs/.
#![tactic(auto)]

ghost use Rattle.std.specs.Prelude.{◌≡◌, ◌<◌, IfSome};
ghost use Rattle.numbers.specs.Numbers.{number_limit, empty_map, used, with_used, used_count, first_free, number_or_limit};

// How many words the map has.
pub const WORDS: usize = 1024;

// How many bits a word has.
pub const WORD_BITS: u64 = 64;

// Question numbers are 1 to LIMIT - 1.
pub const LIMIT: u64 = 65536;

// Bit n % 64 of word n / 64 says whether n is used.
pub type Map = [u64; WORDS];

// The map in which no number is used.
pub fn empty() -> Map
    ensures { result ≡ empty_map }
{
    [0; WORDS]
}

// Whether n is used.
pub fn has(map: &Map, n: u64) -> bool
    ensures { result ≡ used map.now n }
{
    n < LIMIT && (map[(n / WORD_BITS) as usize] >> (n % WORD_BITS)) % 2 == 1
}

// Marks n as used. 0 and what lies above 65,535 are no question numbers and change nothing.
pub fn mark(map: &mut Map, n: u64)
    ensures { map.new ≡ with_used map.old n }
{
    if 0 < n && n < LIMIT {
        map[(n / WORD_BITS) as usize] |= 1 << (n % WORD_BITS);
    }
}

// How many numbers are used: the ones in all words.
pub fn used_count(map: &Map) -> u64
    ensures { result ≡ used_count map.now }
{
    let mut sum: u64 = 0;
    for word in map {
        sum += u64::from(word.count_ones());
    }
    sum
}

// The smallest question number from `from` on that is not used.
// A used number is a 0 in a flipped word, so trailing zeros are the used numbers before the next free one.
pub fn next_free(map: &Map, from: u64) -> Option<u64>
    ensures value { number_or_limit result ≡ first_free map.now from }
    ensures number { IfSome result (λ n. n < number_limit) }
{
    let mut at = from.max(1);

    // Stays: the steps are uneven, first to the end of a word; `for i in ..` over words would take the first word apart.
    while at < LIMIT {
        let flipped = !map[(at / WORD_BITS) as usize] >> (at % WORD_BITS);
        if flipped != 0 {
            return Some(at + u64::from(flipped.trailing_zeros()));
        }
        at = at / WORD_BITS * WORD_BITS + WORD_BITS;
    }
    None
}
