// What the test programs share: what they read from their input, the areas that a call is lent, and answers in print. It
// serves them and is no part of the product. Its functions promise what their callers need to be proved safe, and no more.
//
// A circuit with its words has a head of 24 bytes: the file's length (4), the lengths of directory, times, inertial, fan-ins
// and values (2 each), a rubbish number (2), the caller's limit on the frame total (2), and how many change counts (1), change
// times (2), before words (1) and after words (2) there are. Then come the file, the counts (1 each), the times (4 each), the
// before words and the after words (8 each). Numbers of more than one byte are little-endian. The buffers hold a file of
// 70,000 bytes, areas of 400, 2,100, 2,100, 16,400 and 2,100 entries, 80 counts, 400 times, 80 before words and 400 after
// words: more of each than any call accepts. The limit may be any number of two bytes.
//
// Before a call every area is filled with rubbish: entry k is (rubbish + 257 * k) % 65536, time k has that number in both of
// its halves, and word k of the values in each of its four quarters. A sum of numbers starts at 0, and each number x takes it to
// (17 * sum + x + 1) % 65521. Of the times it takes the two halves of each, of the values the four quarters of each word, the
// lowest first.
#![tactic(auto)]

mod answers;
mod areas;
mod circuits;
mod head;
mod input;
mod print;
mod spans;

pub use answers::{
    show_counted, show_frame, show_planning, show_reading, show_refusal, show_seen, show_totals,
};
pub use areas::{Areas, show_plan_sums, show_sums, with_number};
pub use circuits::{Case, read_behind, read_case};
pub use head::Head;
pub use input::{Cut, FromBytes, fill_list, read_all, read_first, read_list};
pub use print::{
    end_line, show_cut, show_decimal, show_number, show_refused, show_semicolon, show_text,
    show_word,
};
pub use spans::part_of;
