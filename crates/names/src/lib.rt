// The index of declared names: hash chains. Its first words are the heads of the buckets; the others are the entries, an
// entry for each row that declares a name, numbered from 1 on from the last word back. Rows are entered from the last to
// the first. A head is the number of the entry that its bucket gained last, or 0; an entry's link is the head before it.
// So a chain meets its rows in their order.
// Stays: an arena of numbers in lent memory; no heap is used, and the contract of `index_names` names each number of it.
// Stays: `rule: bool` tells rules from questions; callers have it as `code == codes::RULE`, where an enum needs an `if` of two names.
// Stays: the five and six parameters of `follow` and `add`; a struct of them would be made for one call and taken apart there.
#![tactic(auto)]

ghost use Rattle.std.specs.Prelude.{◌≡◌, ◌<◌, ◌&&◌, eqb, cond, length, drop, MatchOption};
ghost use Rattle.lexemes.specs.Words.{word};
ghost use Rattle.answers.specs.Drafts.{drafts_from};
ghost use Rattle.answers.specs.Stages.{cell};
ghost use Rattle.rows.specs.Columns as column;
ghost use Rattle.rows.specs.Marks.{marked};
ghost use Rattle.drafts.specs.Faults.{draft_at};
ghost use Rattle.names.specs.Names.{HASHES, hash_of, key_of, bucket_of, tag_of, entry_of, unpacked, EntryAt, added, names_in, indexed};
ghost use Rattle.names.specs.Names.{same_name, matches, follow, find_in, repeats, repeated_from};

use drafts::place_of;
use rows::columns::{CODE, NAME};
use rows::{cell, codes};

// How many buckets there are.
const BUCKETS: usize = 1024;

// Marks, row numbers and entry numbers lie below it.
const MARKS: u64 = 1 << 17;

// What an entry counts its link by.
const LINKS: u64 = MARKS * MARKS;

// What an entry counts its tag by.
const TAGS: u64 = MARKS * LINKS;

// Hashes lie below it.
const HASHES: u64 = 1 << 22;

// What bytes count by.
const BASE: u64 = 403;

// The key of a name: its bucket, and what tells it from most others there.
#[derive(Clone, Copy, Debug, PartialEq, Eq)]
struct Key {
    bucket: usize,
    tag: u64,
}

// What is known of a row that declares the name at a mark: the entry of its bucket before it is its link.
#[derive(Clone, Copy, Debug, PartialEq, Eq)]
struct Entry {
    tag: u64,
    link: u64,
    row: usize,
    mark: u64,
}

impl Entry {
    // In one number.
    fn pack(self) -> u64
        requires { self.tag < 8192 }
        ensures { result ≡ entry_of self.tag self.link self.row self.mark }
    {
        self.tag * TAGS
            + self.link % MARKS * LINKS
            + self.row as u64 % MARKS * MARKS
            + self.mark % MARKS
    }

    // From one number.
    fn unpack(packed: u64) -> Entry
        ensures { result ≡ unpacked packed }
    {
        Entry {
            tag: packed / TAGS,
            link: packed / LINKS % MARKS,
            row: (packed / MARKS % MARKS) as usize,
            mark: packed % MARKS,
        }
    }

    // It has the tag, and the name at a place.
    fn matches(self, src: &[u8], tag: u64, name: Option<usize>) -> bool
        ensures { result ≡ (eqb self.tag tag && same_name src.now self.mark (marked name)) }
    {
        (self.tag == tag) && same_name(src, place_of(self.mark), name)
    }
}

// The names at two places are the same.
fn same_name(src: &[u8], p: Option<usize>, q: Option<usize>) -> bool
    ensures { result ≡ same_name src.now (marked p) (marked q) }
{
    match (p, q) {
        (Some(p), Some(q)) => (p == q) || lexemes::words::same_word(src, p, q),
        _ => false,
    }
}

// The hash of the word at a place.
fn hash(src: &[u8], at: usize) -> u64
    ensures value { result ≡ hash_of 0 (word (drop at src.now)) }
    ensures upper_bound { result < HASHES }
{
    let mut h = 0;
    for i in at..src.len() {
        let b = lexemes::words::word_byte(src, i);
        if b == 0 {
            return h;
        }
        h = (h * BASE + u64::from(b)) % HASHES;
    }
    h
}

// The key of the name at a place, of a rule or of a question: of the hash, and of HASHES more for a rule.
fn key_of(src: &[u8], name: Option<usize>, rule: bool) -> Key
    ensures bucket { result.bucket ≡ bucket_of (key_of src.now (marked name) rule) }
    ensures tag { result.tag ≡ tag_of (key_of src.now (marked name) rule) }
    ensures upper_bound { result.tag < 8192 }
{
    let number = match name {
        Some(at) if rule => hash(src, at) + HASHES,
        Some(at) => hash(src, at),
        None => 0,
    };
    Key {
        bucket: number as usize % BUCKETS,
        tag: number / BUCKETS as u64,
    }
}

// Enters a row that declares the name at a mark, after some number of entries, where the index has room.
fn add(src: &[u8], index: &mut [u64], entered: usize, row: usize, mark: u64, rule: bool)
    ensures { index.new ≡ added index.old entered (key_of src.now mark rule) row mark }
{
    if index.len().saturating_sub(BUCKETS) <= entered {
        return;
    }
    let Key { bucket, tag } = key_of(src, place_of(mark), rule);
    let slot = index.len() - 1 - entered;
    let link = index[bucket];
    index[slot] = Entry {
        tag,
        link,
        row,
        mark,
    }
    .pack();
    index[bucket] = entered as u64 + 1;
}

// Enters each row that declares a name, as far as the index has room, and answers how many there are.
pub fn index_names(src: &[u8], table: &[u64], count: usize, index: &mut [u64]) -> usize
    ensures value { result ≡ names_in (drafts_from table.now 0 count) }
    ensures index_after { index.new ≡ indexed src.now 0 (drafts_from table.now 0 count) index.old }
{
    let mut named = 0;
    for row in (0..count).rev() {
        let mark = cell(table, row, NAME);
        if mark != 0 {
            let rule = cell(table, row, CODE) == codes::RULE;
            add(src, index, named, row, mark, rule);
            named += 1;
        }
    }
    named
}

// The entry of a number.
fn entry_at(entries: &[u64], at: u64) -> Option<Entry>
    ensures { MatchOption result (0 < at → length entries.now < at) (EntryAt entries.now at) }
{
    let slot = entries.len().checked_sub(at as usize)?;
    entries.get(slot).map(|packed| Entry::unpack(*packed))
}

// The row of the first entry of a chain that has the tag, and the name at a place. The chain ends where a link is not below
// the entry's own number.
fn follow(src: &[u8], entries: &[u64], first: u64, tag: u64, name: Option<usize>) -> Option<usize>
    ensures { marked result ≡ follow (matches src.now tag (marked name)) entries.now first }
{
    let mut at = first;
    while let Some(entry) = entry_at(entries, at) {
        if entry.matches(src, tag, name) {
            return Some(entry.row);
        }
        if at <= entry.link {
            return None;
        }
        at = entry.link;
    }
    None
}

// The first row that declares the name at a place, of a rule or of a question.
pub fn find(src: &[u8], index: &[u64], name: Option<usize>, rule: bool) -> Option<usize>
    ensures { marked result ≡ find_in src.now index.now (marked name) rule }
{
    if index.len() < BUCKETS {
        return None;
    }
    let Key { bucket, tag } = key_of(src, name, rule);
    follow(src, &index[BUCKETS..], index[bucket], tag, name)
}

// The place of the name that a row declares, where the index finds a row before it by that name.
fn repeated_in(src: &[u8], table: &[u64], row: usize, index: &[u64]) -> Option<usize>
    ensures { marked result ≡ cond (repeats src.now index.now row (draft_at table.now row)) (cell column.NAME (draft_at table.now row)) 0 }
{
    let name = place_of(cell(table, row, NAME))?;
    let rule = cell(table, row, CODE) == codes::RULE;
    let first = find(src, index, Some(name), rule)?;
    if first < row { Some(name) } else { None }
}

// 9: a question's name repeated among questions, or a rule's among rules: the index finds a row before.
pub fn repeated_name(src: &[u8], table: &[u64], count: usize, index: &[u64]) -> Option<usize>
    ensures { marked result ≡ repeated_from src.now index.now 0 (drafts_from table.now 0 count) }
{
    (0..count).find_map(|row| repeated_in(src, table, row, index))
}
