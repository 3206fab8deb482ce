//! Laws of the script's grammar. Each is the contract of a function with an empty body.
ghost use Rattle.std.specs.Prelude.{◌≡◌, ◌<◌, ◌≤◌, ◌^◌, ◌∷◌, [], ◌↔◌, ℕ, List, Bool, Option, Some, IfSome, length, decimal, All};
ghost use Rattle.arrow2_script.specs.Lines.{lines_of, words_of, AreLines, AreWordsOfLine};
ghost use Rattle.arrow2_script.specs.Words.{number_of, slot_of, optional_slot_of, optional_slot_word, bit_of, bits_of, bit_byte, bits_text, number_list, numbers_text, below_of, bytes_of, hex_text, width_of, width_word};
ghost use Rattle.arrow2_script.specs.Commands.{command_in, IsSpelling};
ghost use Rattle.arrow2_script.specs.declared.command.Command.{Command};
ghost use Rattle.arrow2_script.specs.declared.words.Width.{Width};

/// The lines of a script hold no line end. Joined, with a line end after each, they equal the script, to which a line
/// end is added if its last line has none. No other list of lines has these two properties.
pub fn lines_of_a_script()
    ensures are { (script : List ℕ) → AreLines script (lines_of script) }
    ensures only { (script : List ℕ) (lines : List (List ℕ)) → AreLines script lines →
        lines ≡ lines_of script }
{}

/// If a line has words, none is empty and none holds a space. Joined by single spaces, they equal the line. No other
/// list of words has these properties.
pub fn words_of_a_line()
    ensures { (line : List ℕ) (words : List (List ℕ)) → 0 < length words →
        (words_of line ≡ words) ↔ AreWordsOfLine line words }
{}

/// A word is parsed as a value exactly where it is the one word that spells this value. A value is a number, a slot, a
/// slot or none, a table, a bit, a text of bits, a list of numbers, bytes or a width.
pub fn one_word_of_a_value()
    // Numbers, and what is written as a number below a bound.
    ensures number { (word : List ℕ) (n : ℕ) → (number_of word ≡ Some n) ↔
        ((n < 2 ^ 64) × (decimal n ≡ word)) }
    ensures slot { (word : List ℕ) (n : ℕ) → (slot_of word ≡ Some n) ↔
        ((n < 16) × (decimal n ≡ word)) }
    ensures optional_slot { (word : List ℕ) (slot : Option ℕ) →
        (optional_slot_of word ≡ Some slot) ↔
        (IfSome slot (λ n. n < 16) × (optional_slot_word slot ≡ word)) }
    ensures table { (bound : ℕ) (word : List ℕ) (n : ℕ) → bound ≤ 2 ^ 64 →
        (below_of bound word ≡ Some n) ↔ ((n < bound) × (decimal n ≡ word)) }
    // Bits, lists and bytes, and the width of a word.
    ensures bit { (word : List ℕ) (bit : Bool) → (bit_of word ≡ Some bit) ↔
        (bit_byte bit ∷ [] ≡ word) }
    ensures bits { (word : List ℕ) (items : List Bool) → (bits_of word ≡ Some items) ↔
        (bits_text items ≡ word) }
    ensures numbers { (word ns : List ℕ) → (number_list word ≡ Some ns) ↔
        (All (λ n. n < 2 ^ 64) ns × (numbers_text ns ≡ word)) }
    ensures bytes { (word bytes : List ℕ) → (bytes_of word ≡ Some bytes) ↔
        (All (λ b. b < 256) bytes × (hex_text bytes ≡ word)) }
    ensures width { (word : List ℕ) (width : Width) → (width_of word ≡ Some width) ↔
        (width_word width ≡ word) }
{}

/// A line is parsed as a command exactly where it is the words of this command, joined by one space each.
pub fn one_line_of_a_command()
    ensures { (line : List ℕ) (command : Command) → (command_in line ≡ Some command) ↔
        IsSpelling line command }
{}
