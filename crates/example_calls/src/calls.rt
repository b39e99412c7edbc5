// The functions for C, called. Arguments that are numbers stand at their places, counted from 0; buffers are what is
// lent.
use example_text::arguments::Slots;
use example_text::digits::{Signed, read_signed};
use example_text::signatures::Function;
use revosti::between::{revosti_list_between, revosti_mark_between};
use revosti::converting::{revosti_pack_marks, revosti_unpack_marks};
use revosti::desk::{revosti_hand_in, revosti_next_desk, revosti_open_desks, revosti_turn};
use revosti::fresh::revosti_fresh_marks;
use revosti::listing::revosti_list_pairs;
use revosti::mark::{revosti_ask_sheet, revosti_mark_sheet};
use revosti::measure::revosti_measure;
use revosti::page::{revosti_read_page, revosti_write_page};
use revosti::pending::{revosti_confirm, revosti_withdraw};
use revosti::reading::{revosti_read_tsplib, revosti_tsplib_points};
use revosti::receipt::{revosti_candidate_view, revosti_examiner_view, revosti_release};
use revosti::saved::{revosti_crossing_saving, revosti_exchange_saving, revosti_move_saving};
use revosti::tell::revosti_tell_line;
use revosti::tour::revosti_check_tour;

// The answer, a saving's with its sign.
#[derive(Clone, Copy, PartialEq, Eq)]
pub enum Answer {
    Number(u64),
    Saving(i64),
}

impl Answer {
    // The saving with this sign: none where 64 bits do not hold it.
    fn saving(signed: Signed) -> Option<Answer> {
        let saving = match signed {
            Signed::Plain(size) => i64::try_from(size).ok()?,
            Signed::Minus(size) => -i64::try_from(size).ok()?,
        };
        Some(Answer::Saving(saving))
    }

    // The answer of a function that a text begins with, and what stands behind it. None is a number that the function
    // never answers.
    pub fn read(function: Function, text: &[u8]) -> Option<(Option<Answer>, &[u8])> {
        let (signed, rest) = read_signed(text)?;
        let answer = match (function, signed) {
            (Function::ExchangeSaving | Function::MoveSaving | Function::CrossingSaving, _) => {
                Answer::saving(signed)
            }
            (_, Signed::Plain(number)) => Some(Answer::Number(number)),
            (_, Signed::Minus(_)) => None,
        };
        Some((answer, rest))
    }
}

// A number of 32 bits, and one of 16. What is read is never above.
fn word(x: u64) -> u32 {
    u32::try_from(x).unwrap_or(0)
}

fn half(x: u64) -> u16 {
    u16::try_from(x).unwrap_or(0)
}

// The saving of a crossing.
fn crossing(n: u32, table: &[u8], h: [u16; 16]) -> i64 {
    revosti_crossing_saving(n, table, h[2], h[3], h[4], h[5], h[6], h[7], h[8], h[9])
}

// Calls a function with what is lent of the buffers.
pub fn call(function: Function, numbers: &[u64; 16], slots: &mut Slots) -> Answer {
    let w = numbers.map(word);
    let h = numbers.map(half);
    let table = slots.table.lend();
    let marks = slots.marks.lend();
    let sheet = slots.sheet.lend();
    let text = slots.text.lend();
    Answer::Number(match function {
        Function::Measure => revosti_measure(w[0], w[1], sheet, table),
        Function::ReadTsplib => revosti_read_tsplib(text, table),
        Function::TsplibPoints => revosti_tsplib_points(text),
        Function::FreshMarks => revosti_fresh_marks(w[0], marks),
        Function::PackMarks => revosti_pack_marks(w[0], sheet, marks),
        Function::UnpackMarks => revosti_unpack_marks(w[0], marks, sheet),
        Function::Confirm => revosti_confirm(w[0], marks),
        Function::Withdraw => revosti_withdraw(w[0], marks),
        Function::MarkSheet => revosti_mark_sheet(w[0], table, marks, sheet),
        Function::AskSheet => revosti_ask_sheet(w[0], table, marks, sheet),
        Function::MarkBetween => revosti_mark_between(w[0], table, text, marks, sheet),
        Function::CheckTour => revosti_check_tour(w[0], table, marks, sheet),
        Function::ListPairs => revosti_list_pairs(w[0], table, marks, h[3], h[4], h[5], sheet),
        Function::ListBetween => {
            revosti_list_between(w[0], table, text, marks, h[4], h[5], h[6], sheet)
        }
        Function::TellLine => revosti_tell_line(w[0], table, marks, sheet, w[4], text),
        Function::Release => revosti_release(numbers[0]),
        Function::ExaminerView => revosti_examiner_view(numbers[0], sheet),
        Function::CandidateView => revosti_candidate_view(numbers[0], sheet),
        Function::WritePage => revosti_write_page(w[0], table, marks, w[3], text),
        Function::ReadPage => revosti_read_page(w[0], w[1], text, table, marks),
        Function::OpenDesks => revosti_open_desks(text),
        Function::HandIn => revosti_hand_in(text, w[1], w[2], table, marks, sheet),
        Function::NextDesk => revosti_next_desk(text),
        Function::Turn => revosti_turn(text, w[1], table, marks, sheet),
        Function::ExchangeSaving => {
            return Answer::Saving(revosti_exchange_saving(w[0], table, h[2], h[3], h[4], h[5]));
        }
        Function::MoveSaving => {
            return Answer::Saving(revosti_move_saving(w[0], table, h[2], h[3], h[4], h[5], h[6]));
        }
        Function::CrossingSaving => return Answer::Saving(crossing(w[0], table, h)),
    })
}
