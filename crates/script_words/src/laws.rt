//! Laws of reading back: a script built from lines, words and bytes gives these lines, words and bytes.
ghost use Rattle.std.specs.{Prelude.{◌≡◌, ◌<◌, ◌≤◌, ◌+◌, ◌^◌, ℕ, replicate, List, [], ◌∷◌, ◌++◌, length, All}, Fmt.{decimal}, List.{flat_map}};
ghost use Rattle.list_laws.specs.Lines.{HasNoLineFeed, IsPlainLine};
ghost use Rattle.script_words.specs.{Lines.{lines_of}, Words.{words_of, text_after, spaced, IsWord}, Numbers.{number_of}, Text.{Spells, HasNoBackslash, with_doubled}};

/// Written lines, each with a line feed, or a carriage return and a line feed, are the first lines of the script; the last
/// needs no line end. Words that are each followed by a space are the first words of a line, and the text after them is the
/// rest. Decimal numbers are read back, even with leading zeros, up to 10 digits. A text spells at most one list of bytes,
/// and any bytes are spelled by some text.
pub fn script_laws()
    ensures nothing { lines_of [] ≡ [] }
    ensures line_feeds { (lines : List (List ℕ)) (rest : List ℕ) → All IsPlainLine lines
        → lines_of (flat_map (λ line. line ++ 10 ∷ []) lines ++ rest) ≡ lines ++ lines_of rest }
    ensures returns { (lines : List (List ℕ)) (rest : List ℕ) → All HasNoLineFeed lines
        → lines_of (flat_map (λ line. line ++ 13 ∷ 10 ∷ []) lines ++ rest)
        ≡ lines ++ lines_of rest }
    ensures last_line { (line : List ℕ) → 0 < length line → HasNoLineFeed line
        → lines_of line ≡ line ∷ [] }
    ensures no_words { words_of [] ≡ [] }
    ensures spaces { (line : List ℕ) → words_of (32 ∷ line) ≡ words_of line }
    ensures words { (words : List (List ℕ)) (line : List ℕ) → All IsWord words
        → words_of (spaced words ++ line) ≡ words ++ words_of line }
    ensures last_word { (word : List ℕ) → IsWord word → words_of word ≡ word ∷ [] }
    ensures text { (words : List (List ℕ)) (text : List ℕ) → 0 < length words → All IsWord words
        → text_after (length words) (spaced words ++ text) ≡ text }
    ensures no_text { (words : List (List ℕ)) (word : List ℕ) → All IsWord words → IsWord word
        → text_after (length words + 1) (spaced words ++ word) ≡ [] }
    ensures decimal { (n zeros : ℕ) → n < 2 ^ 32 → zeros + length (decimal n) ≤ 10
        → number_of (replicate zeros 48 ++ decimal n) ≡ Some n }
    ensures one { (text first second : List ℕ) → Spells text first → Spells text second
        → first ≡ second }
    ensures plain { (bytes : List ℕ) → HasNoBackslash bytes → Spells bytes bytes }
    ensures doubled { (bytes : List ℕ) → Spells (with_doubled bytes) bytes }
{}
