//! What ties the entries that are read to the texts that are spelled. Each law is the contract of a
//! function that does nothing.
ghost use Rattle.std.specs.Prelude.{◌≡◌, ◌<◌, ◌≤◌, ◌+◌, ◌++◌, ℕ, List, length, take, drop, Some, None};
ghost use Rattle.std.specs.List.{flat_map};
ghost use Rattle.event_logs.specs.declared.entry.Side.{Side};
ghost use Rattle.event_logs.specs.declared.entry.Entry.{Entry};
ghost use Rattle.event_logs.specs.declared.fault.LogFault.TheVariants.{BadRecord, TooMany};
ghost use Rattle.event_logs.specs.Entry.{entry_with, entry_size, entry_in};
ghost use Rattle.event_logs.specs.Text.{entry_text};
ghost use Rattle.event_logs.specs.Log.{EntryParts, text_of_entry, IsEntry, Found, Are, IsLog, BeginsNone, log_entries, log_fault};

/// What `write_entry` writes is read again, whatever follows it: the entry, its bytes and where it
/// ends.
pub fn written_is_read()
    ensures entry { (side : Side) (entry : Entry) (letter : ℕ) (bytes more : List ℕ)
        → length bytes ≤ 65535 → entry_with side letter (length bytes) ≡ Some entry
        → entry_in side (entry_text letter bytes ++ more) ≡ Some entry }
    ensures bytes { (side : Side) (entry : Entry) (letter : ℕ) (bytes more : List ℕ)
        → length bytes ≤ 65535 → entry_with side letter (length bytes) ≡ Some entry
        → take (entry_size entry) (drop 3 (entry_text letter bytes ++ more)) ≡ bytes }
    ensures after { (side : Side) (entry : Entry) (letter : ℕ) (bytes more : List ℕ)
        → length bytes ≤ 65535 → entry_with side letter (length bytes) ≡ Some entry
        → drop (3 + entry_size entry) (entry_text letter bytes ++ more) ≡ more }
{}

/// A text is read as an entry exactly where it begins with the entry's parts.
pub fn exact_entries()
    ensures read { (side : Side) (entry : Entry) (text : List ℕ) → entry_in side text ≡ Some entry
        → (parts : EntryParts) × IsEntry side entry parts × (text ≡ text_of_entry parts
        ++ drop (3 + entry_size entry) text) × (parts.bytes ≡ take (entry_size entry) (drop 3 text)) }
    ensures spelled { (side : Side) (entry : Entry) (parts : EntryParts) (more : List ℕ)
        → IsEntry side entry parts → entry_in side (text_of_entry parts ++ more) ≡ Some entry }
{}

/// A whole entry stays what it is where the text after it is cut.
pub fn cut_after()
    ensures { (side : Side) (entry : Entry) (text : List ℕ) (k : ℕ) → entry_in side text
        ≡ Some entry → 3 + entry_size entry ≤ k → entry_in side (take k text) ≡ Some entry }
{}

/// A text made of entries is read as these, without a fault.
pub fn a_log_is_read()
    ensures fault { (side : Side) (text : List ℕ) (found : List Found)
        → IsLog side text found → log_fault side text ≡ None }
    ensures entries { (side : Side) (text : List ℕ) (found : List Found)
        → IsLog side text found → log_entries side text ≡ found }
{}

/// A text that is read without a fault is made of the entries that are read.
pub fn read_is_a_log()
    ensures { (side : Side) (text : List ℕ)
        → log_fault side text ≡ None → IsLog side text (log_entries side text) }
{}

/// The first byte where no entry begins is refused, and entry 16,777,217 whatever it is; the
/// entries before are read.
pub fn first_fault()
    ensures bad { (side : Side) (text rest : List ℕ) (found : List Found) (before : List EntryParts)
        → text ≡ flat_map text_of_entry before ++ rest → Are side 0 found before
        → length before < 16777216 → 0 < length rest → BeginsNone side rest → (log_fault side text
        ≡ Some (BadRecord (length (flat_map text_of_entry before)))) × (log_entries side text ≡ found) }
    ensures many { (side : Side) (text rest : List ℕ) (found : List Found) (before : List EntryParts)
        → text ≡ flat_map text_of_entry before ++ rest → Are side 0 found before
        → length before ≡ 16777216 → 0 < length rest → (log_fault side text
        ≡ Some (TooMany (length (flat_map text_of_entry before)))) × (log_entries side text ≡ found) }
{}
