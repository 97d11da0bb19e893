//! The names that declarations and statements declare, in textual order.

ghost use Rattle.std.specs.Prelude.{◌≡◌, ◌∷◌, ◌++◌, [], length, IfOk, OnOk};
ghost use Rattle.sim_flat_scope.specs.DeclaredNames as spec;

use sim_text_tree::declaration::{Declaration, ObjectDeclaration, PortDeclaration};
use sim_text_tree::name::Name;
use sim_text_tree::sequential::{Branch, Sequential, Statement};
use sim_text_tree::unit::{Concurrent, Process};
use std::alloc::{AllocError, Global};
use std::marker::Model;

/// A list of names of a tree.
pub struct Names<'a> {
    names: Vec<&'a Name>,
}

/// Written by hand so that code which drops it needs no proof about its contents.
impl<'a> Drop for Names<'a> {
    fn drop(self) {
        let Names { names } = self;
        drop(names);
    }
}

impl<'a> Model for Names<'a> {
    ghost use Rattle.std.specs.Prelude.{List};
    ghost use Rattle.sim_text_tree.specs.Name.{Name};
    ghost use Rattle.sim_flat_scope.specs.DeclaredNames.{named_by};

    ghost Value = { List Name };

    ghost view = { λ s. named_by s.names.items };
}

impl<'a> Names<'a> {
    /// An empty list.
    #[tactic(auto, unfolding(crate::specs::DeclaredNames::named_by))]
    pub fn new(alloc: Global) -> Names<'a>
        ensures { result ≡ [] }
    {
        Names {
            names: Vec::new(alloc),
        }
    }

    /// The names of ports.
    pub fn of_ports(alloc: Global, ports: &'a [PortDeclaration]) -> Result<Names<'a>, AllocError>
        ensures { IfOk result (λ names. names ≡ spec.port_names ports.now) }
    {
        let mut names = Names::new(alloc);
        names.push_ports(ports)?;
        Ok(names)
    }

    /// The names that an architecture itself declares: those of its declarations, then its labels.
    pub fn of_body(
        alloc: Global,
        declarations: &'a [Declaration],
        statements: &'a [Concurrent],
    ) -> Result<Names<'a>, AllocError>
        ensures { IfOk result (λ names. names ≡ spec.body_names declarations.now statements.now) }
    {
        let mut names = Names::new(alloc);
        names.push_declarations(declarations)?;
        names.push_concurrents(statements)?;
        Ok(names)
    }

    /// The labels of concurrent statements.
    pub fn of_concurrents(
        alloc: Global,
        statements: &'a [Concurrent],
    ) -> Result<Names<'a>, AllocError>
        ensures { IfOk result (λ names. names ≡ spec.concurrent_labels statements.now) }
    {
        let mut names = Names::new(alloc);
        names.push_concurrents(statements)?;
        Ok(names)
    }

    /// The names that a process declares: its variables, then the labels of its statements.
    pub fn of_process(alloc: Global, process: &'a Process) -> Result<Names<'a>, AllocError>
        ensures { IfOk result (λ names. names ≡ spec.process_names process.now) }
    {
        let mut names = Names::new(alloc);
        names.push_variables(process.variables.as_slice())?;
        names.push_statements(process.statements.as_slice())?;
        Ok(names)
    }

    /// The labels of sequential statements, including those inside ifs.
    pub fn of_statements(
        alloc: Global,
        statements: &'a [Sequential],
    ) -> Result<Names<'a>, AllocError>
        ensures { IfOk result (λ names. names ≡ spec.statement_labels statements.now) }
    {
        let mut names = Names::new(alloc);
        names.push_statements(statements)?;
        Ok(names)
    }

    /// References to the names.
    pub fn as_slice(&self) -> &[&'a Name]
        ensures { spec.named_by result.now ≡ self.now }
    {
        self.names.as_slice()
    }

    /// The number of names.
    #[tactic(auto, using(crate::proofs::NameLists::length_named))]
    pub fn len(&self) -> usize
        ensures { result ≡ length self.now }
    {
        self.names.len()
    }

    /// Appends a name.
    #[tactic(auto, using(crate::proofs::NameLists::named_by_more))]
    pub fn push(&mut self, name: &'a Name) -> Result<(), AllocError>
        ensures { OnOk result (self.new ≡ self.old ++ name.now ∷ []) }
    {
        self.names.push(name)?;
        Ok(())
    }

    /// Appends several names.
    #[tactic(auto, using(crate::proofs::NameLists::appends))]
    fn push_all(&mut self, names: &'a [Name]) -> Result<(), AllocError>
        ensures { OnOk result (self.new ≡ self.old ++ names.now) }
    {
        for name in names {
            self.push(name)?;
        }
        Ok(())
    }

    /// Appends the names of ports.
    #[tactic(auto, using(crate::proofs::NameLists::appends), unfolding(crate::specs::DeclaredNames::port_names))]
    fn push_ports(&mut self, ports: &'a [PortDeclaration]) -> Result<(), AllocError>
        ensures { OnOk result (self.new ≡ self.old ++ spec.port_names ports.now) }
    {
        for port in ports {
            self.push_all(port.names.as_slice())?;
        }
        Ok(())
    }

    /// Appends the names of variables.
    #[tactic(auto, using(crate::proofs::NameLists::appends), unfolding(crate::specs::DeclaredNames::variable_names))]
    fn push_variables(&mut self, variables: &'a [ObjectDeclaration]) -> Result<(), AllocError>
        ensures { OnOk result (self.new ≡ self.old ++ spec.variable_names variables.now) }
    {
        for variable in variables {
            self.push_all(variable.names.as_slice())?;
        }
        Ok(())
    }

    /// Appends the names of a declaration.
    fn push_declaration(&mut self, declaration: &'a Declaration) -> Result<(), AllocError>
        ensures { OnOk result (self.new ≡ self.old ++ spec.names_of declaration.now) }
    {
        match declaration {
            Declaration::Signal(signals) => self.push_all(signals.names.as_slice()),
            Declaration::Component(component) => self.push(&component.name),
        }
    }

    /// Appends the names of an architecture's declarations.
    #[tactic(auto, using(crate::proofs::NameLists::appends), unfolding(crate::specs::DeclaredNames::declaration_names))]
    fn push_declarations(&mut self, declarations: &'a [Declaration]) -> Result<(), AllocError>
        ensures { OnOk result (self.new ≡ self.old ++ spec.declaration_names declarations.now) }
    {
        for declaration in declarations {
            self.push_declaration(declaration)?;
        }
        Ok(())
    }

    /// Appends a label, if there is one.
    #[tactic(auto, using(crate::proofs::NameLists::appends))]
    fn push_label(&mut self, label: &'a Option<Name>) -> Result<(), AllocError>
        ensures { OnOk result (self.new ≡ self.old ++ spec.label_name label.now) }
    {
        match label {
            Some(label) => self.push(label),
            None => Ok(()),
        }
    }

    /// Appends the label of a concurrent statement, if it has one.
    fn push_concurrent(&mut self, statement: &'a Concurrent) -> Result<(), AllocError>
        ensures { OnOk result (self.new ≡ self.old ++ spec.concurrent_label statement.now) }
    {
        match statement {
            Concurrent::Assignment(assignment) => self.push_label(&assignment.label),
            Concurrent::Process(process) => self.push_label(&process.label),
            Concurrent::Instance(instance) => self.push(&instance.label),
        }
    }

    /// Appends the labels of an architecture's statements.
    #[tactic(auto, using(crate::proofs::NameLists::appends), unfolding(crate::specs::DeclaredNames::concurrent_labels))]
    fn push_concurrents(&mut self, statements: &'a [Concurrent]) -> Result<(), AllocError>
        ensures { OnOk result (self.new ≡ self.old ++ spec.concurrent_labels statements.now) }
    {
        for statement in statements {
            self.push_concurrent(statement)?;
        }
        Ok(())
    }

    /// Appends the label of a sequential statement and those inside it.
    #[cycle(labels)]
    #[tactic(auto, using(crate::proofs::LabelRules::label_rules))]
    fn push_statement(&mut self, statement: &'a Sequential) -> Result<(), AllocError>
        ensures { OnOk result (self.new ≡ self.old ++ spec.sequential_labels statement.now) }
    {
        self.push_label(&statement.label)?;
        self.push_inner(&statement.statement)
    }

    /// Appends the labels inside a statement.
    #[cycle(labels)]
    #[tactic(auto, using(crate::proofs::LabelRules::label_rules))]
    fn push_inner(&mut self, statement: &'a Statement) -> Result<(), AllocError>
        ensures { OnOk result (self.new ≡ self.old ++ spec.inner_labels statement.now) }
    {
        match statement {
            Statement::If {
                branches,
                otherwise,
                ..
            } => {
                self.push_branches(branches.as_slice())?;
                match otherwise {
                    Some(statements) => self.push_statements(statements.as_slice()),
                    None => Ok(()),
                }
            }
            Statement::Signal(_) | Statement::Variable(_) | Statement::Null => Ok(()),
        }
    }

    /// Appends the labels of the statements after a `then`.
    #[cycle(labels)]
    #[tactic(auto, using(crate::proofs::LabelRules::label_rules))]
    fn push_branch(&mut self, branch: &'a Branch) -> Result<(), AllocError>
        ensures { OnOk result (self.new ≡ self.old ++ spec.branch_labels branch.now) }
    {
        self.push_statements(branch.statements.as_slice())
    }

    /// Appends the labels in the branches of an if.
    #[cycle(labels)]
    #[tactic(auto, using(crate::proofs::LabelRules::label_rules), unfolding(crate::specs::DeclaredNames::branches_labels))]
    fn push_branches(&mut self, branches: &'a [Branch]) -> Result<(), AllocError>
        ensures { OnOk result (self.new ≡ self.old ++ spec.branches_labels branches.now) }
    {
        for branch in branches {
            self.push_branch(branch)?;
        }
        Ok(())
    }

    /// Appends the labels of sequential statements, including those inside ifs.
    #[cycle(labels)]
    #[tactic(auto, using(crate::proofs::LabelRules::label_rules), unfolding(crate::specs::DeclaredNames::statement_labels))]
    fn push_statements(&mut self, statements: &'a [Sequential]) -> Result<(), AllocError>
        ensures { OnOk result (self.new ≡ self.old ++ spec.statement_labels statements.now) }
    {
        for statement in statements {
            self.push_statement(statement)?;
        }
        Ok(())
    }
}
