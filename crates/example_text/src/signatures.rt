// The functions for C and what they take.

#[derive(Clone, Copy, Debug, PartialEq, Eq)]
pub enum Function {
    Measure,
    ReadTsplib,
    TsplibPoints,
    FreshMarks,
    PackMarks,
    UnpackMarks,
    Confirm,
    Withdraw,
    MarkSheet,
    AskSheet,
    MarkBetween,
    CheckTour,
    ListPairs,
    ListBetween,
    TellLine,
    Release,
    ExaminerView,
    CandidateView,
    WritePage,
    ReadPage,
    OpenDesks,
    HandIn,
    NextDesk,
    Turn,
    ExchangeSaving,
    MoveSaving,
    CrossingSaving,
}

// Each function with its name and its arguments', those of include/revosti.h. The letter behind = says what an argument
// is:
//
//   h, w, l   a number of 16, 32 or 64 bits
//   t         a table, 32 bits a number
//   m         marks, 8 bits
//   c, s, b   coordinates (32 bits); a sheet, a tour or a list (16); a byte set or a view (8)
//   g, d      a high table (32 bits); a text or desks (8)
//
// Buffers of a row share a place, and no function takes two of a row.
const SIGNATURES: [(Function, &str); 27] = [
    (
        Function::Measure,
        "measure n=w rule=w coordinates=c table=t",
    ),
    (Function::ReadTsplib, "read_tsplib text=d table=t"),
    (Function::TsplibPoints, "tsplib_points text=d"),
    (Function::FreshMarks, "fresh_marks n=w marks=m"),
    (Function::PackMarks, "pack_marks n=w bytes=b packed=m"),
    (Function::UnpackMarks, "unpack_marks n=w packed=m bytes=b"),
    (Function::Confirm, "confirm n=w marks=m"),
    (Function::Withdraw, "withdraw n=w marks=m"),
    (
        Function::MarkSheet,
        "mark_sheet n=w table=t marks=m sheet=s",
    ),
    (Function::AskSheet, "ask_sheet n=w table=t marks=m sheet=s"),
    (
        Function::MarkBetween,
        "mark_between n=w low=t high=g marks=m sheet=s",
    ),
    (Function::CheckTour, "check_tour n=w table=t marks=m tour=s"),
    (
        Function::ListPairs,
        "list_pairs n=w table=t marks=m a=h b=h c=h list=s",
    ),
    (
        Function::ListBetween,
        "list_between n=w low=t high=g marks=m a=h b=h c=h list=s",
    ),
    (
        Function::TellLine,
        "tell_line n=w table=t marks=m sheet=s record=w text=d",
    ),
    (Function::Release, "release slip=l"),
    (Function::ExaminerView, "examiner_view slip=l bytes=b"),
    (Function::CandidateView, "candidate_view slip=l bytes=b"),
    (
        Function::WritePage,
        "write_page n=w table=t marks=m page=w text=d",
    ),
    (
        Function::ReadPage,
        "read_page n=w page=w text=d table=t marks=m",
    ),
    (Function::OpenDesks, "open_desks desks=d"),
    (
        Function::HandIn,
        "hand_in desks=d desk=w n=w table=t marks=m sheet=s",
    ),
    (Function::NextDesk, "next_desk desks=d"),
    (Function::Turn, "turn desks=d n=w table=t marks=m sheet=s"),
    (
        Function::ExchangeSaving,
        "exchange_saving n=w table=t p=h q=h x=h y=h",
    ),
    (
        Function::MoveSaving,
        "move_saving n=w table=t c=h x=h y=h u=h v=h",
    ),
    (
        Function::CrossingSaving,
        "crossing_saving n=w table=t p=h q=h r=h s=h x=h y=h z=h w=h",
    ),
];

// The function that a line names, what the list says of its arguments, and what stands in the line behind the name.
pub fn find(line: &[u8]) -> Option<(Function, &'static str, &[u8])> {
    let end = line.iter().position(|x| *x == b' ')?;
    let (name, rest) = line.split_at_checked(end)?;
    for (function, signature) in SIGNATURES {
        let (listed, arguments) = signature.split_once(' ')?;
        if listed.as_bytes() == name {
            return Some((function, arguments, rest));
        }
    }
    None
}
