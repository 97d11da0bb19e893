use crate::line::Line;
use crate::written::declarations::{put_declarations, put_ports, put_variables};
use crate::written::statements::put_statements;
use crate::written::waveforms::put_assignment;
use sim_text_tree::DesignFile;
use sim_text_tree::unit::{
    Actual, Architecture, Association, Concurrent, ContextItem, Entity, Instance, Instantiated,
    LibraryUnit, Process, SelectedName, Sensitivity,
};

/// Appends a sensitivity list, or `all`.
fn put_sensitivity(line: &mut Line, sensitivity: &Sensitivity) {
    match sensitivity {
        Sensitivity::All => line.put("all"),
        Sensitivity::Names(names) => line.put_names(names.as_slice()),
    }
}

/// Appends a process, and whether `postponed` and its label are repeated at its end.
fn put_process(line: &mut Line, process: &Process) {
    line.put_label(&process.label);
    line.put_if(process.postponed, "postponed ");
    line.put("process(");
    put_sensitivity(line, &process.sensitivity);
    line.put(")");
    line.put_if(process.is, "is ");
    put_variables(line, process.variables.as_slice());
    line.put("begin ");
    put_statements(line, process.statements.as_slice());
    line.put("end ");
    line.put_if(process.postponed_repeated, "postponed ");
    line.put("process");
    line.put_if(process.label_repeated, " again");
    line.put(";");
}

/// Appends a name, a literal or `open`.
fn put_actual(line: &mut Line, actual: &Actual) {
    match actual {
        Actual::Named(name) => line.put_name(name),
        Actual::Literal { value, at } => line.put_literal(*value, *at),
        Actual::Open { at } => line.put_at("open", *at),
    }
}

/// Appends a port map, with the formals that are written.
fn put_associations(line: &mut Line, associations: &[Association]) {
    let mut between = " port map(";
    for association in associations {
        line.put(between);
        if let Some(formal) = &association.formal {
            line.put_name(formal);
            line.put("=>");
        }
        put_actual(line, &association.actual);
        between = ",";
    }
    line.put_if(!associations.is_empty(), ")");
}

/// Appends the entity or component of an instance.
fn put_instantiated(line: &mut Line, unit: &Instantiated) {
    match unit {
        Instantiated::Component {
            word_written,
            component,
        } => {
            line.put_if(*word_written, "component ");
            line.put_name(component);
        }
        Instantiated::Entity {
            library,
            entity,
            architecture,
        } => {
            line.put("entity ");
            line.put_name(library);
            line.put(".");
            line.put_name(entity);
            if let Some(name) = architecture {
                line.put("(");
                line.put_name(name);
                line.put(")");
            }
        }
    }
}

/// Appends an instance with its port map.
fn put_instance(line: &mut Line, instance: &Instance) {
    line.put_name(&instance.label);
    line.put(":");
    put_instantiated(line, &instance.unit);
    put_associations(line, instance.associations.as_slice());
    line.put(";");
}

/// Appends the statements of an architecture.
fn put_concurrents(line: &mut Line, statements: &[Concurrent]) {
    for statement in statements {
        match statement {
            Concurrent::Assignment(assignment) => put_assignment(line, assignment),
            Concurrent::Process(process) => put_process(line, process),
            Concurrent::Instance(instance) => put_instance(line, instance),
        }
    }
}

/// Appends a selected name with its suffixes.
fn put_selected(line: &mut Line, name: &SelectedName) {
    line.put_name(&name.prefix);
    for suffix in name.suffixes.as_slice() {
        line.put(".");
        line.put_name(suffix);
    }
    line.put_if(name.all, ".all");
}

/// Appends the names of a use clause.
fn put_selected_names(line: &mut Line, names: &[SelectedName]) {
    let mut between = "use ";
    for name in names {
        line.put(between);
        put_selected(line, name);
        between = ",";
    }
    line.put(";");
}

/// Appends library and use clauses.
fn put_context(line: &mut Line, context: &[ContextItem]) {
    for item in context {
        match item {
            ContextItem::Library(names) => {
                line.put("library ");
                line.put_names(names.as_slice());
                line.put(";");
            }
            ContextItem::Use(names) => put_selected_names(line, names.as_slice()),
        }
    }
}

/// Appends an entity with its ports.
fn put_entity(line: &mut Line, entity: &Entity) {
    line.put("entity ");
    line.put_name(&entity.name);
    line.put(" is ");
    put_ports(line, entity.ports.as_slice());
    line.put("end");
    line.put_if(entity.word_repeated, " entity");
    line.put_if(entity.name_repeated, " again");
    line.put(";");
}

/// Appends an architecture with its declarations and statements.
fn put_architecture(line: &mut Line, architecture: &Architecture) {
    line.put("architecture ");
    line.put_name(&architecture.name);
    line.put(" of ");
    line.put_name(&architecture.entity);
    line.put(" is ");
    put_declarations(line, architecture.declarations.as_slice());
    line.put("begin ");
    put_concurrents(line, architecture.statements.as_slice());
    line.put("end");
    line.put_if(architecture.word_repeated, " architecture");
    line.put_if(architecture.name_repeated, " again");
    line.put(";");
}

/// Appends the units of a design file, each with its context clause.
pub fn put_file(line: &mut Line, file: &DesignFile) {
    for unit in file.units() {
        put_context(line, unit.context.as_slice());
        match &unit.library_unit {
            LibraryUnit::Entity(entity) => put_entity(line, entity),
            LibraryUnit::Architecture(architecture) => put_architecture(line, architecture),
        }
    }
}
