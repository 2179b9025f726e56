// Where the lines can be taken no further: the refusal that says why, and what is taken back.
ghost use Rattle.std.specs.Prelude.{◌≡◌, ◌<◌, length};
ghost use Rattle.rules.specs.Sheets.{table_count, table_sheet_size};
ghost use Rattle.lines.specs.LineEnds.{line_refusal};
ghost use Rattle.judging.specs.States.{table_open};
ghost use Rattle.reading.specs.Closing.{closing_number, given_up};

use judging::state::Phase;
use lines::Unreadable;
use steps::refusals;

// The refusals of a line that may not be read: 3, 4 and 5.
pub fn line_refusal(why: Unreadable) -> u32
    ensures { result ≡ line_refusal why }
{
    match why {
        Unreadable::Unended => refusals::UNENDED,
        Unreadable::Illegal => refusals::ILLEGAL_BYTE,
        Unreadable::TooLong => refusals::LINE_TOO_LONG,
    }
}

// The refusals of the file's end: 9, 23, 13, or 0.
pub fn closing(phase: Phase, sheet: &[u32]) -> u32
    requires { length sheet.now ≡ table_sheet_size }
    ensures { result ≡ closing_number phase sheet.now }
{
    match phase {
        Phase::Start => refusals::WRONG_FORMAT,
        Phase::Top => {
            if sheet[0] == 0 {
                return refusals::TABLE_MISSING;
            }
            if sheet[1] == 0 {
                return refusals::TABLE_MISSING;
            }
            0
        }
        Phase::InTable { table: _, rows: _ } | Phase::InSentence(_) => refusals::ENDS_INSIDE,
        Phase::Behind => 0,
    }
}

// The rows of a table that was not closed are taken out of the sheet.
pub fn give_up(phase: Phase, sheet: &mut [u32])
    requires { (table_open phase < table_count) × (length sheet.old ≡ table_sheet_size) }
    ensures { sheet.new ≡ given_up phase sheet.old }
{
    if let Phase::InTable { table, rows: _ } = phase {
        let place = table_sheet::row_place(table as usize, 0);
        table_sheet::clear_rows(sheet, place, table_sheet::TABLE_ROOM);
    }
}
