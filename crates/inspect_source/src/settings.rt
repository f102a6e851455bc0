//! What stands before a line, as far as its faults ask for it.
use sbx_asm::Line;
use sbx_directives::{Directive, Keyword, Statement};

/// What the lines before a line leave.
#[derive(Clone, Copy)]
pub struct Setting {
    /// Whether the code is current.
    pub in_code: bool,
    /// Whether a `.data` stands before.
    pub has_data: bool,
    /// How many functions there are, up to 256.
    pub functions: u16,
    /// Whether a function is open.
    pub is_open: bool,
    /// Whether it has a `.block`.
    pub has_block: bool,
    /// Whether its newest block has an instruction.
    pub has_acted: bool,
}

impl Setting {
    /// Before the first line.
    pub fn start() -> Setting {
        Setting {
            in_code: true,
            has_data: false,
            functions: 0,
            is_open: false,
            has_block: false,
            has_acted: false,
        }
    }

    /// Behind the beginning of a function, or of one whose operands are none.
    fn with_function(self, is_open: bool) -> Setting {
        Setting {
            functions: self.functions.saturating_add(u16::from(is_open)),
            is_open,
            has_block: false,
            has_acted: false,
            ..self
        }
    }

    /// Behind the beginning of a block.
    fn with_block(self) -> Setting {
        Setting {
            has_block: true,
            has_acted: false,
            ..self
        }
    }

    /// Behind one more line.
    pub fn after(self, line: &Line<'_, '_>) -> Setting {
        match line.said() {
            Err(_) | Ok(Statement::Instruction) => Setting {
                has_acted: true,
                ..self
            },
            Ok(Statement::Directive(Directive::Text)) => Setting {
                in_code: true,
                ..self
            },
            Ok(Statement::Directive(Directive::Data)) => Setting {
                in_code: false,
                has_data: true,
                ..self
            },
            Ok(Statement::Directive(Directive::Region { .. })) => Setting {
                in_code: false,
                ..self
            },
            Ok(Statement::Directive(Directive::Function { .. })) => self.with_function(true),
            Ok(Statement::Malformed(Keyword::Function, _)) => self.with_function(false),
            Ok(
                Statement::Directive(Directive::Block(_)) | Statement::Malformed(Keyword::Block, _),
            ) => self.with_block(),
            _ => self,
        }
    }
}
