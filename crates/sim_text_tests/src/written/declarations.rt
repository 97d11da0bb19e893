use crate::line::Line;
use sim_text_tree::declaration::{
    ComponentDeclaration, Declaration, Initial, Mode, ObjectDeclaration, PortDeclaration,
};

/// Appends `:=` and the value, if one is written.
fn put_initial(line: &mut Line, initial: &Option<Initial>) {
    match initial {
        None => {}
        Some(Initial::Literal { value, at }) => {
            line.put(":=");
            line.put_literal(*value, *at);
        }
        Some(Initial::Named(name)) => {
            line.put(":=");
            line.put_name(name);
        }
    }
}

/// The word of a mode and a space; nothing if none is written.
fn mode(mode: Option<Mode>) -> &'static str {
    match mode {
        None => "",
        Some(Mode::In) => "in ",
        Some(Mode::Out) => "out ",
        Some(Mode::Inout) => "inout ",
    }
}

/// Appends a port declaration, with its names, mode and type mark.
fn put_port(line: &mut Line, port: &PortDeclaration) {
    line.put_if(port.signal, "signal ");
    line.put_names(port.names.as_slice());
    line.put(":");
    line.put(mode(port.mode));
    line.put_name(&port.mark);
    put_initial(line, &port.initial);
}

/// Appends a port clause, if there are ports.
pub fn put_ports(line: &mut Line, ports: &[PortDeclaration]) {
    let mut between = "port(";
    for port in ports {
        line.put(between);
        put_port(line, port);
        between = ";";
    }
    line.put_if(!ports.is_empty(), ");");
}

/// Appends a declaration of signals or variables, after the word for their class.
fn put_object(line: &mut Line, class: &str, object: &ObjectDeclaration) {
    line.put(class);
    line.put_names(object.names.as_slice());
    line.put(":");
    line.put_name(&object.mark);
    put_initial(line, &object.initial);
    line.put(";");
}

/// Appends the declarations of a process.
pub fn put_variables(line: &mut Line, variables: &[ObjectDeclaration]) {
    for variable in variables {
        put_object(line, "variable ", variable);
    }
}

/// Appends a component with its ports.
fn put_component(line: &mut Line, component: &ComponentDeclaration) {
    line.put("component ");
    line.put_name(&component.name);
    line.put_if(component.is, " is");
    line.put(" ");
    put_ports(line, component.ports.as_slice());
    line.put("end component");
    line.put_if(component.name_repeated, " again");
    line.put(";");
}

/// Appends the declarations of an architecture.
pub fn put_declarations(line: &mut Line, declarations: &[Declaration]) {
    for declaration in declarations {
        match declaration {
            Declaration::Signal(object) => put_object(line, "signal ", object),
            Declaration::Component(component) => put_component(line, component),
        }
    }
}
