//! What is made of statements.

ghost use Rattle.std.specs.Prelude.{◌≡◌, OnOk};
ghost use Rattle.pale_syntax.specs.MakingStatements.{after_statement, with_statement, narrowed};
ghost use Rattle.pale_build.specs.Building.{parts_of};
ghost use Rattle.pale_text.specs.Near.{near_of};

use crate::parts::Parts;
use crate::takes::{
    take_block, take_bracketed, take_condition, take_else, take_name, take_path, take_place,
    take_value,
};
use pale_syntax::{Block, Name, Statement, StatementAct, Value};
use pale_text::Near;
use plain_data::{Items, Stack};
use std::alloc::{AllocError, Global};

/// Puts the statement at the end of the block on top.
pub fn add_statement(
    alloc: Global,
    blocks: &mut Stack<Block>,
    one: Statement,
) -> Result<(), AllocError>
    ensures { OnOk result (blocks.new ≡ with_statement one blocks.old) }
{
    let mut block = take_block(alloc, blocks);
    block.push(one)?;
    blocks.push(block)
}

/// A new cell of the variant.
fn narrowed(value: Value, variant: Name) -> Value
    ensures { result ≡ narrowed value variant }
{
    match value {
        Value::New(place, ty, _) => Value::New(place, ty, Some(variant)),
        Value::Condition(place, condition) => Value::Condition(place, condition),
    }
}

impl Parts {
    pub fn perform_statement(&mut self, act: StatementAct, near: Near) -> Result<(), AllocError>
        ensures { OnOk result (parts_of self.new ≡ after_statement act (near_of near.entry) (parts_of self.old)) }
    {
        match act {
            StatementAct::BeginBlock => self.blocks.push(Items::new(self.alloc)),
            StatementAct::MakeSkip => {
                let place = take_place(&mut self.places);
                add_statement(self.alloc, &mut self.blocks, Statement::Skip(place))
            }
            StatementAct::NoElse => self.elses.push(None),
            StatementAct::SetElse => {
                drop(take_else(&mut self.elses));
                let block = take_block(self.alloc, &mut self.blocks);
                self.elses.push(Some(block))
            }
            StatementAct::MakeIf => {
                let place = take_place(&mut self.places);
                let condition = take_condition(&mut self.conditions);
                let block = take_block(self.alloc, &mut self.blocks);
                let otherwise = take_else(&mut self.elses);
                let made = Statement::If(place, condition, block, otherwise);
                add_statement(self.alloc, &mut self.blocks, made)
            }
            StatementAct::MakeWhile => {
                let place = take_place(&mut self.places);
                let condition = take_condition(&mut self.conditions);
                let invariant = take_bracketed(&mut self.brackets);
                let block = take_block(self.alloc, &mut self.blocks);
                let made = Statement::While(place, condition, invariant, block);
                add_statement(self.alloc, &mut self.blocks, made)
            }
            StatementAct::MakeSplit => {
                let place = take_place(&mut self.places);
                let made = Statement::Split(place, take_bracketed(&mut self.brackets));
                add_statement(self.alloc, &mut self.blocks, made)
            }
            StatementAct::MakeAssert => {
                let place = take_place(&mut self.places);
                let made = Statement::Assert(place, take_bracketed(&mut self.brackets));
                add_statement(self.alloc, &mut self.blocks, made)
            }
            StatementAct::MakeFree => {
                let place = take_place(&mut self.places);
                let made = Statement::Free(place, take_name(self.alloc, &mut self.names));
                add_statement(self.alloc, &mut self.blocks, made)
            }
            StatementAct::MakeNew => {
                let place = take_place(&mut self.places);
                let ty = take_name(self.alloc, &mut self.names);
                self.values.push(Value::New(place, ty, None))
            }
            StatementAct::NarrowNew => {
                let value = take_value(&mut self.values);
                let variant = take_name(self.alloc, &mut self.names);
                self.values.push(narrowed(value, variant))
            }
            StatementAct::MakeValue => {
                let place = take_place(&mut self.places);
                let condition = take_condition(&mut self.conditions);
                self.values.push(Value::Condition(place, condition))
            }
            StatementAct::MakeAssign => {
                let path = take_path(self.alloc, &mut self.paths);
                let place = take_place(&mut self.places);
                let made = Statement::Assign(path, place, take_value(&mut self.values));
                add_statement(self.alloc, &mut self.blocks, made)
            }
        }
    }
}
