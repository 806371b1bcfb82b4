// The code of statements. A jump forward is put with no target, which is filled in once it is known.
ghost use Rattle.std.specs.Prelude.{suc, length, IfOk, OnOk};
ghost use Rattle.translator.specs.Emitted.{statement_code, statements_code, if_code, if_else_code, while_code};
ghost use Rattle.translator.specs.Guarded.{Guards};
ghost use Rattle.translator.specs.Emitters.{Emits};

use crate::emitter::Emitter;
use crate::failure::Failure;
use code::Instruction;
use syntax::tree::{Guarded, Statement};

impl Emitter<'_> {
    // A condition, a jump for when it is false, and a body. Answers where the jump stands, which has no target yet.
    #[cycle(statement_emitters)]
    fn guarded(&mut self, guarded: &Guarded) -> Result<usize, Failure>
        ensures { IfOk result (λ jump. Guards self.old guarded.now jump self.new) }
    {
        self.condition(&guarded.condition)?;
        let jump = self.code.len();
        self.put(Instruction::JumpIfZero(0), guarded.place)?;
        self.statement(&guarded.body)?;
        Ok(jump)
    }

    #[cycle(statement_emitters)]
    fn if_statement(&mut self, guarded: &Guarded) -> Result<(), Failure>
        ensures { OnOk result (Emits self.old (if_code self.old.scope guarded.now (suc (length self.old.code.items))) self.new) }
    {
        let branch = self.guarded(guarded)?;
        let end = self.next_address()?;
        self.patch(branch, Instruction::JumpIfZero(end), guarded.place);
        Ok(())
    }

    #[cycle(statement_emitters)]
    fn if_else_statement(
        &mut self,
        first: &Guarded,
        else_place: u32,
        else_body: &Statement,
    ) -> Result<(), Failure>
        ensures { OnOk result (Emits self.old (if_else_code self.old.scope first.now else_place else_body.now (suc (length self.old.code.items))) self.new) }
    {
        let branch = self.guarded(first)?;
        let skip = self.code.len();
        self.put(Instruction::Jump(0), else_place)?;
        let second = self.next_address()?;
        self.patch(branch, Instruction::JumpIfZero(second), first.place);
        self.statement(else_body)?;
        let end = self.next_address()?;
        self.patch(skip, Instruction::Jump(end), else_place);
        Ok(())
    }

    #[cycle(statement_emitters)]
    fn while_statement(&mut self, guarded: &Guarded) -> Result<(), Failure>
        ensures { OnOk result (Emits self.old (while_code self.old.scope guarded.now (suc (length self.old.code.items))) self.new) }
    {
        let start = self.next_address()?;
        let branch = self.guarded(guarded)?;
        self.put(Instruction::Jump(start), guarded.place)?;
        let exit = self.next_address()?;
        self.patch(branch, Instruction::JumpIfZero(exit), guarded.place);
        Ok(())
    }

    #[cycle(statement_emitters)]
    fn statement(&mut self, statement: &Statement) -> Result<(), Failure>
        ensures { OnOk result (Emits self.old (statement_code self.old.scope statement.now (suc (length self.old.code.items))) self.new) }
    {
        match statement {
            Statement::Assign(name, value) => {
                self.expression(value)?;
                self.put(Instruction::Store(self.cell(*name)), name.place)
            }
            Statement::Scan(name) => self.put(Instruction::Read(self.cell(*name)), name.place),
            Statement::Print(name) => self.put(Instruction::Write(self.cell(*name)), name.place),
            Statement::If(guarded) => self.if_statement(guarded),
            Statement::IfElse {
                first,
                else_place,
                else_body,
            } => self.if_else_statement(first, *else_place, else_body),
            Statement::While(guarded) => self.while_statement(guarded),
            Statement::Block(statements) => self.statements(statements),
        }
    }

    #[cycle(statement_emitters)]
    pub fn statements(&mut self, statements: &[Statement]) -> Result<(), Failure>
        ensures { OnOk result (Emits self.old (statements_code self.old.scope statements.now (suc (length self.old.code.items))) self.new) }
    {
        for statement in statements {
            self.statement(statement)?;
        }
        Ok(())
    }
}
