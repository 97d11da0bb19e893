use crate::line::Line;
use crate::written::expressions::put_expression;
use crate::written::waveforms::{put_delay, put_waveform};
use sim_text_tree::sequential::{
    Branch, Sequential, SignalAssignment, Statement, VariableAssignment,
};

/// Appends a signal assignment.
fn put_signal(line: &mut Line, assignment: &SignalAssignment) {
    line.put_name(&assignment.target);
    line.put("<=");
    put_delay(line, &assignment.delay);
    put_waveform(line, assignment.waveform.as_slice());
    line.put(";");
}

/// Appends a variable assignment.
fn put_variable(line: &mut Line, assignment: &VariableAssignment) {
    line.put_name(&assignment.target);
    line.put(":=");
    put_expression(line, &assignment.value);
    line.put(";");
}

/// Appends the branches of an if statement, the first with `if` and the others with `elsif`.
#[cycle(sequential)]
fn put_branches(line: &mut Line, branches: &[Branch]) {
    let mut first = true;
    for branch in branches {
        line.put(if first { "if " } else { "elsif " });
        put_expression(line, &branch.condition);
        line.put(" then ");
        put_statements(line, branch.statements.as_slice());
        first = false;
    }
}

/// Appends a statement without its label.
#[cycle(sequential)]
fn put_statement(line: &mut Line, statement: &Statement) {
    match statement {
        Statement::Signal(assignment) => put_signal(line, assignment),
        Statement::Variable(assignment) => put_variable(line, assignment),
        Statement::If {
            branches,
            otherwise,
            label_repeated,
        } => {
            put_branches(line, branches.as_slice());
            if let Some(statements) = otherwise {
                line.put("else ");
                put_statements(line, statements.as_slice());
            }
            line.put("end if");
            line.put_if(*label_repeated, " again");
            line.put(";");
        }
        Statement::Null => line.put("null;"),
    }
}

/// Appends statements, each with its label.
#[cycle(sequential)]
pub fn put_statements(line: &mut Line, statements: &[Sequential]) {
    for sequential in statements {
        line.put_label(&sequential.label);
        put_statement(line, &sequential.statement);
    }
}
