// The data block of a response while it is written.
ghost use Rattle.std.specs.Prelude.{[], ◌∷◌, ◌≡◌};
ghost use Rattle.block.specs.Command.{the_report, unknown};
ghost use Rattle.commands.specs.Draft.{Adds, blank};

use block::Held;
use encoding::Unwritten;

// The first `length` of `bytes` are written, with `page` in force after them.
#[derive(Clone, Copy)]
pub struct Draft {
    pub bytes: [u8; framing::LONGEST_BLOCK],
    pub length: usize,
    pub page: u8,
}

impl Draft {
    // Nothing is written.
    pub(crate) fn blank() -> Draft
        ensures { result ≡ blank }
    {
        Draft {
            bytes: [0u8; framing::LONGEST_BLOCK],
            length: 0,
            page: 0,
        }
    }

    // Adds the report of a value.
    pub(crate) fn add_value(&mut self, report: Held) -> Result<(), Unwritten>
        ensures { Adds self.old (the_report report.entry ∷ []) result self.new }
    {
        self.length = encoding::write_report(&mut self.bytes, self.length, self.page, report)?;
        self.page = report.page;
        Ok(())
    }

    // Adds the report of an unknown parameter.
    pub(crate) fn add_unknown(&mut self, page: u8, low: u8) -> Result<(), Unwritten>
        ensures { Adds self.old (unknown page low ∷ []) result self.new }
    {
        self.length = encoding::write_unknown(&mut self.bytes, self.length, self.page, page, low)?;
        self.page = page;
        Ok(())
    }
}
