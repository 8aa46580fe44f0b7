//! What the modules of tests share.
use brisk_parse::ParseFault;
use brisk_syntax::{Program, Stmt};
use brisk_test_texts::{TextFault, parsed_program, parsed_sequence};
use std::alloc::Global;
use std::test::Fail;

fn syntax_fault<T: Drop>(read: Result<T, TextFault>) -> Result<Option<ParseFault>, Fail> {
    match read {
        Ok(_) => Ok(None),
        Err(TextFault::Syntax(fault)) => Ok(Some(fault)),
        Err(fault) => Err(fault)?,
    }
}

// The syntax fault of a source, if it has one.
pub fn fault(alloc: Global, source: &[u8]) -> Result<Option<ParseFault>, Fail> {
    syntax_fault(parsed_program(alloc, source))
}

// The syntax fault of a sequential text, if it has one.
pub fn sequence_fault(alloc: Global, text: &[u8]) -> Result<Option<ParseFault>, Fail> {
    syntax_fault(parsed_sequence(alloc, text))
}

// The first statement of a source.
pub fn first_statement(program: &Program) -> Result<&Stmt, Fail> {
    let role = program.roles.items.first().ok_or("no role")?;
    Ok(role.code.items.first().ok_or("no statement")?)
}
