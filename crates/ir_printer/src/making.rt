//! The pair of modules of a seed.

ghost use Rattle.std.specs.Prelude.{◌≡◌, ◌∷◌, ◌++◌, [], ◌+◌, ◌*◌, ◌<◌, ◌≤◌, ◌^◌, ◌&&◌, ◌==◌, false, true, IfOk, OnOk};
ghost use Rattle.std.specs.Fmt.{decimal};
ghost use Rattle.ir_tree.specs.Names.{with_name};
ghost use Rattle.ir_tree.specs.declared.name.Name.TheVariants.{Word};
ghost use Rattle.ir_printer.specs.Made.{byte_parameter, drawn, eight as eight_bits, function_name, made_binary, made_block, made_entries, made_entry, made_function, made_inst, made_insts, made_module, made_names, made_op as op_of, next_state, result_names, state_behind, value as value_of, value_name as name_of_value};

use ir_tree::{
    Block, Entry, Flags, Function, Inst, IrType, Module, Name, Names, Op, Operand, Parameter,
    Terminator, TypedOperand,
};
use itoa::Buffer;
use std::alloc::Global;
use support::{NoMemory, Sequence};
use tv_num::Width;

/// The state of the generator, below 2^31.
#[derive(Clone, Copy)]
struct Generator {
    state: u64,
    ghost small: { state < 2 ^ 31 },
}

impl Generator {
    /// A number below `n`, of the next state.
    fn draw(&mut self, n: u64) -> u64
        requires { 0 < n }
        ensures state { self.new.state ≡ next_state self.old.state }
        ensures value { result ≡ drawn n (next_state self.old.state) }
        ensures below { result < n }
    {
        self.state = (self.state * 1_103_515_245 + 12_345) % (1 << 31);
        self.state / 65_536 % n
    }
}

/// An instruction, as it is drawn: an operation, two values, and whether the target has them exchanged.
#[derive(Clone, Copy)]
struct Draw {
    op: u64,
    left: u64,
    right: u64,
    exchanged: bool,
}

fn eight() -> Width
    ensures { result ≡ eight_bits }
{
    Width::of(8)
}

fn op_of_number(n: u64) -> Op
    ensures { result ≡ op_of n }
{
    let flags = Flags {
        nuw: false,
        nsw: false,
    };
    match n {
        0 => Op::Add(flags),
        1 => Op::Sub(flags),
        2 => Op::And,
        3 => Op::Or { disjoint: false },
        _ => Op::Xor,
    }
}

/// The draws of instruction `i`.
fn draw_inst(generator: &mut Generator, i: u64) -> Draw
    requires { i < 64 }
    ensures state { generator.new.state ≡ state_behind 4 generator.old.state }
    ensures op { result.op ≡ drawn 5 (state_behind 1 generator.old.state) }
    ensures left { result.left ≡ drawn (i + 2) (state_behind 2 generator.old.state) }
    ensures right { result.right ≡ drawn (i + 2) (state_behind 3 generator.old.state) }
    ensures exchanged { result.exchanged ≡ (drawn 4 (state_behind 4 generator.old.state) == 3) }
    ensures within { (result.left < i + 2) × (result.right < i + 2) }
{
    let op = generator.draw(5);
    let left = generator.draw(i + 2);
    let right = generator.draw(i + 2);
    let exchanged = generator.draw(4) == 3;
    Draw {
        op,
        left,
        right,
        exchanged,
    }
}

/// The number of the name of a value.
fn value_name(n: u64) -> usize
    requires { n < 128 }
    ensures { result ≡ name_of_value n }
{
    if n < 2 { n as usize } else { n as usize + 1 }
}

fn value(n: u64) -> Operand
    requires { n < 128 }
    ensures { result ≡ value_of n }
{
    Operand::Local(value_name(n))
}

/// Instruction `i` of a draw.
fn inst_of(in_target: bool, i: u64, draw: Draw) -> Inst
    requires number { i < 64 }
    requires within { (draw.left < i + 2) × (draw.right < i + 2) }
    ensures { result ≡ made_binary (in_target && draw.exchanged) i draw.op draw.left draw.right }
{
    let (left, right) = if in_target && draw.exchanged {
        (draw.right, draw.left)
    } else {
        (draw.left, draw.right)
    };
    Inst::Binary {
        into: value_name(i + 2),
        op: op_of_number(draw.op),
        width: eight(),
        left: value(left),
        right: value(right),
    }
}

fn insts_of(
    alloc: Global,
    in_target: bool,
    insts: u64,
    generator: &mut Generator,
) -> Result<Vec<Inst>, NoMemory>
    requires { insts ≤ 64 }
    ensures insts { IfOk result (λ made. made.items ≡ made_insts in_target insts 0 generator.old.state) }
    ensures state { OnOk result (generator.new.state ≡ state_behind (4 * insts) generator.old.state) }
{
    let mut made = Vec::new(alloc);
    for i in 0..insts {
        let draw = draw_inst(generator, i);
        made.push(inst_of(in_target, i, draw))?;
    }
    Ok(made)
}

/// The name of these letters and this number.
fn numbered_name(alloc: Global, letters: &[u8], n: u64) -> Result<Name, NoMemory>
    ensures { IfOk result (λ name. name ≡ Word (letters.now ++ decimal n)) }
{
    let mut digits = Buffer::new();
    let mut text = Vec::from_slice(alloc, letters)?;
    text.extend_from_slice(digits.format(n).as_bytes())?;
    Ok(Name::Word(Sequence::from_vec(text)))
}

fn word_name(alloc: Global, letters: &[u8]) -> Result<Name, NoMemory>
    ensures { IfOk result (λ name. name ≡ Word letters.now) }
{
    Ok(Name::Word(Sequence::from_vec(Vec::from_slice(alloc, letters)?)))
}

fn names_of(alloc: Global, insts: u64) -> Result<Names, NoMemory>
    ensures { IfOk result (λ names. names ≡ made_names insts) }
{
    let mut names = Names::new(alloc);
    push_names(alloc, insts, &mut names).and(Ok(names))
}

fn push_names(alloc: Global, insts: u64, names: &mut Names) -> Result<(), NoMemory>
    requires { names.old ≡ [] }
    ensures { OnOk result (names.new ≡ made_names insts) }
{
    names.number(word_name(alloc, b"a")?)?;
    names.number(word_name(alloc, b"b")?)?;
    names.number(word_name(alloc, b"entry")?)?;
    for i in 0..insts {
        names.number(numbered_name(alloc, b"r", i)?)?;
    }
    Ok(())
}

fn block_of(
    alloc: Global,
    in_target: bool,
    insts: u64,
    generator: &mut Generator,
) -> Result<Block, NoMemory>
    requires { insts ≤ 64 }
    ensures block { IfOk result (λ block. block ≡ made_block in_target insts generator.old.state) }
    ensures state { OnOk result (generator.new.state ≡ state_behind (4 * insts) generator.old.state) }
{
    let made = insts_of(alloc, in_target, insts, generator)?;
    let returned = TypedOperand {
        of_type: IrType::Int(eight()),
        operand: value(insts + 1),
    };
    Ok(Block {
        label: 2,
        phis: Sequence::from_vec(Vec::new(alloc)),
        insts: Sequence::from_vec(made),
        terminator: Terminator::Return(Some(returned)),
    })
}

fn byte_parameter_of(name: usize) -> Parameter
    ensures { result ≡ byte_parameter name }
{
    Parameter {
        of_type: IrType::Int(eight()),
        no_undef: false,
        non_null: false,
        name,
    }
}

fn parameters_of(alloc: Global) -> Result<Sequence<Parameter>, NoMemory>
    ensures { IfOk result (λ made. made ≡ byte_parameter 0 ∷ byte_parameter 1 ∷ []) }
{
    let both = [byte_parameter_of(0), byte_parameter_of(1)];
    Ok(Sequence::from_vec(Vec::from_slice(alloc, &both)?))
}

fn blocks_of(alloc: Global, block: Block) -> Result<Sequence<Block>, NoMemory>
    ensures { IfOk result (λ blocks. blocks ≡ block ∷ []) }
{
    let mut blocks = Vec::new(alloc);
    blocks.push(block)?;
    Ok(Sequence::from_vec(blocks))
}

fn function_of(
    alloc: Global,
    in_target: bool,
    insts: u64,
    k: u64,
    generator: &mut Generator,
) -> Result<Function, NoMemory>
    requires { insts ≤ 64 }
    ensures function { IfOk result (λ f. f ≡ made_function in_target insts k generator.old.state) }
    ensures state { OnOk result (generator.new.state ≡ state_behind (4 * insts) generator.old.state) }
{
    let block = block_of(alloc, in_target, insts, generator)?;
    let blocks = blocks_of(alloc, block)?;
    let name = numbered_name(alloc, b"m", k)?;
    let parameters = parameters_of(alloc)?;
    let names = names_of(alloc, insts)?;
    Ok(Function {
        name,
        returns: Some(IrType::Int(eight())),
        returns_no_undef: false,
        parameters,
        blocks,
        names,
        places: Sequence::from_vec(Vec::new(alloc)),
    })
}

fn entry_of(
    alloc: Global,
    in_target: bool,
    insts: u64,
    k: u64,
    generator: &mut Generator,
) -> Result<Entry, NoMemory>
    requires { insts ≤ 64 }
    ensures entry { IfOk result (λ entry. entry ≡ made_entry in_target insts k generator.old.state) }
    ensures state { OnOk result (generator.new.state ≡ state_behind (4 * insts) generator.old.state) }
{
    let function = function_of(alloc, in_target, insts, k, generator)?;
    let name = numbered_name(alloc, b"m", k)?;
    Ok(Entry {
        name,
        function: Ok(function),
    })
}

fn module_of(
    alloc: Global,
    in_target: bool,
    seed: u64,
    functions: u64,
    insts: u64,
) -> Result<Module, NoMemory>
    requires seed { seed < 2 ^ 31 }
    requires insts { insts ≤ 64 }
    ensures { IfOk result (λ made. made ≡ made_module in_target seed functions insts) }
{
    let mut generator = Generator { state: seed };
    let mut entries = Vec::new(alloc);
    for k in 0..functions {
        entries.push(entry_of(alloc, in_target, insts, k, &mut generator)?)?;
    }
    Ok(Module {
        entries: Sequence::from_vec(entries),
    })
}

/// The pair of modules of a seed, source and target: functions `@m0`, `@m1` and so on, `i8` of two
/// `i8`, each a block of that many of `add`, `sub`, `and`, `or` and `xor` on values before it. The
/// target's are the same with the operands of about one instruction in four exchanged.
pub fn make(
    alloc: Global,
    seed: u64,
    functions: u64,
    insts: u64,
) -> Result<(Module, Module), NoMemory>
    requires seed { seed < 2 ^ 31 }
    requires insts { insts ≤ 64 }
    ensures source { IfOk result (λ pair. pair.0 ≡ made_module false seed functions insts) }
    ensures target { IfOk result (λ pair. pair.1 ≡ made_module true seed functions insts) }
{
    let source = module_of(alloc, false, seed, functions, insts)?;
    let target = module_of(alloc, true, seed, functions, insts)?;
    Ok((source, target))
}
