// The demands of a table that is written, and of what was read and is written again (document 02, M-100).
ghost use Rattle.answers.specs.Answers.{answer_of};
ghost use Rattle.writer.specs.Writer.{value_of};
ghost use Rattle.demands.specs.Demands.{TableWritten, SheetRewritten};

use answers::Refusal;
use hall::table::Table;

pub fn write(table: Table, buffer: &mut [u8]) -> Result<u64, Refusal>
    ensures { TableWritten table buffer.old (answer_of result) (value_of result) buffer.new }
{
    table.shaped();
    writer::writer::write(table, buffer)
}

// "writing a table read from an accepted sheet gives the same bytes"
pub fn rewrite(sheet: &[u8], buffer: &mut [u8]) -> Result<u64, Refusal>
    ensures { SheetRewritten sheet.now buffer.old (answer_of result) (value_of result) buffer.new }
{
    let mut accepted = Table::fresh();
    sheet::reader::read(sheet, &mut accepted)?;
    writer::writer::write(accepted, buffer)
}
