// The table of the opcodes: the byte of each is its place in `Op`.
ghost use Rattle.std.specs.Prelude.{◌≡◌, slice_get};
ghost use Rattle.bytecode_buf.specs.Table.{number_of, op_at, row_of};
ghost use Rattle.bytecode_buf.specs.Width.{first_width, second_width, is_jump_shape, is_jump, shape_of};

/// An opcode. Its byte is its place in this list, from 0.
///
/// The names are those of SpiderMonkey's `vm/Opcodes.h`; bytes, operands and stack effects are this
/// project's own choice.
#[derive(Clone, Copy)]
pub enum Op {
    Undefined,
    Null,
    False,
    True,
    Zero,
    One,
    Hole,
    Uninitialized,
    Callee,
    FunctionThis,
    GlobalThis,
    Arguments,
    IsConstructing,
    NewInit,
    Exception,
    Int8,
    Uint16,
    Uint24,
    Int32,
    Double,
    String,
    Pos,
    Neg,
    BitNot,
    Not,
    Typeof,
    TypeofExpr,
    Void,
    Inc,
    Dec,
    ToNumeric,
    ToPropertyKey,
    ToString,
    Add,
    Sub,
    Mul,
    Div,
    Mod,
    Pow,
    BitOr,
    BitXor,
    BitAnd,
    Lsh,
    Rsh,
    Ursh,
    Eq,
    Ne,
    StrictEq,
    StrictNe,
    Lt,
    Le,
    Gt,
    Ge,
    In,
    Instanceof,
    GetElem,
    StrictDelElem,
    GetGName,
    BindGName,
    StrictSetGName,
    InitGLexical,
    ThrowSetConst,
    GetArg,
    SetArg,
    GetLocal,
    SetLocal,
    InitLexical,
    CheckLexical,
    GetAliasedVar,
    SetAliasedVar,
    InitAliasedLexical,
    CheckAliasedLexical,
    NewArray,
    InitElemArray,
    InitProp,
    InitPropGetter,
    InitPropSetter,
    InitElem,
    InitElemGetter,
    InitElemSetter,
    MutateProto,
    GetProp,
    StrictSetProp,
    StrictDelProp,
    StrictSetElem,
    Call,
    New,
    Lambda,
    JumpTarget,
    LoopHead,
    Goto,
    JumpIfFalse,
    JumpIfTrue,
    And,
    Or,
    Coalesce,
    Case,
    Default,
    Return,
    SetRval,
    RetRval,
    Throw,
    Try,
    Iter,
    MoreIter,
    IsNoIter,
    EndIter,
    Debugger,
    PushLexicalEnv,
    PopLexicalEnv,
    FreshenLexicalEnv,
    GlobalOrEvalDeclInstantiation,
    Pop,
    Dup,
    Dup2,
    Swap,
    Pick,
    Unpick,
    Rest,
    PushVarEnv,
}

/// What stands after an opcode's byte.
#[derive(Clone, Copy)]
pub enum Shape {
    /// Nothing.
    Nothing,
    /// A whole number of 1 byte.
    Whole8,
    /// A whole number of 2 bytes.
    Whole16,
    /// A whole number of 3 bytes.
    Whole24,
    /// A whole number of 4 bytes.
    Whole32,
    /// A whole number of 8 bytes.
    Whole64,
    /// The number of a text, 4 bytes.
    Atom,
    /// The place of an argument, 2 bytes.
    Arg,
    /// A slot of the frame, 3 bytes.
    Slot,
    /// A binding of an environment: hops in 2 bytes, then the slot in 3.
    Aliased,
    /// A count or the number of a thing, 4 bytes.
    Num,
    /// A count of arguments, 2 bytes.
    Argc,
    /// A place on the stack, counted from the top, 3 bytes.
    Place,
    /// A jump's distance, signed, 8 bytes.
    Jump,
}

/// How many values an instruction takes or gives.
#[derive(Clone, Copy)]
pub enum Count {
    /// This many.
    Fixed(u8),
    /// This many more than its operand.
    More(u8),
}

/// An opcode's row of the table.
#[derive(Clone, Copy)]
pub struct OpRow {
    pub shape: Shape,
    pub pops: Count,
    pub pushes: Count,
}

/// The opcodes in the order of their bytes.
pub const OPS: [Op; 120] = [
    Op::Undefined,
    Op::Null,
    Op::False,
    Op::True,
    Op::Zero,
    Op::One,
    Op::Hole,
    Op::Uninitialized,
    Op::Callee,
    Op::FunctionThis,
    Op::GlobalThis,
    Op::Arguments,
    Op::IsConstructing,
    Op::NewInit,
    Op::Exception,
    Op::Int8,
    Op::Uint16,
    Op::Uint24,
    Op::Int32,
    Op::Double,
    Op::String,
    Op::Pos,
    Op::Neg,
    Op::BitNot,
    Op::Not,
    Op::Typeof,
    Op::TypeofExpr,
    Op::Void,
    Op::Inc,
    Op::Dec,
    Op::ToNumeric,
    Op::ToPropertyKey,
    Op::ToString,
    Op::Add,
    Op::Sub,
    Op::Mul,
    Op::Div,
    Op::Mod,
    Op::Pow,
    Op::BitOr,
    Op::BitXor,
    Op::BitAnd,
    Op::Lsh,
    Op::Rsh,
    Op::Ursh,
    Op::Eq,
    Op::Ne,
    Op::StrictEq,
    Op::StrictNe,
    Op::Lt,
    Op::Le,
    Op::Gt,
    Op::Ge,
    Op::In,
    Op::Instanceof,
    Op::GetElem,
    Op::StrictDelElem,
    Op::GetGName,
    Op::BindGName,
    Op::StrictSetGName,
    Op::InitGLexical,
    Op::ThrowSetConst,
    Op::GetArg,
    Op::SetArg,
    Op::GetLocal,
    Op::SetLocal,
    Op::InitLexical,
    Op::CheckLexical,
    Op::GetAliasedVar,
    Op::SetAliasedVar,
    Op::InitAliasedLexical,
    Op::CheckAliasedLexical,
    Op::NewArray,
    Op::InitElemArray,
    Op::InitProp,
    Op::InitPropGetter,
    Op::InitPropSetter,
    Op::InitElem,
    Op::InitElemGetter,
    Op::InitElemSetter,
    Op::MutateProto,
    Op::GetProp,
    Op::StrictSetProp,
    Op::StrictDelProp,
    Op::StrictSetElem,
    Op::Call,
    Op::New,
    Op::Lambda,
    Op::JumpTarget,
    Op::LoopHead,
    Op::Goto,
    Op::JumpIfFalse,
    Op::JumpIfTrue,
    Op::And,
    Op::Or,
    Op::Coalesce,
    Op::Case,
    Op::Default,
    Op::Return,
    Op::SetRval,
    Op::RetRval,
    Op::Throw,
    Op::Try,
    Op::Iter,
    Op::MoreIter,
    Op::IsNoIter,
    Op::EndIter,
    Op::Debugger,
    Op::PushLexicalEnv,
    Op::PopLexicalEnv,
    Op::FreshenLexicalEnv,
    Op::GlobalOrEvalDeclInstantiation,
    Op::Pop,
    Op::Dup,
    Op::Dup2,
    Op::Swap,
    Op::Pick,
    Op::Unpick,
    Op::Rest,
    Op::PushVarEnv,
];

fn entry(table: &[Op], byte: u8) -> Option<Op>
    ensures { result ≡ slice_get table.now byte }
{
    table.get(usize::from(byte)).copied()
}

fn make_row(shape: Shape, pops: Count, pushes: Count) -> OpRow
    ensures { result ≡ record { shape = shape; pops = pops; pushes = pushes } }
{
    OpRow {
        shape,
        pops,
        pushes,
    }
}

impl Shape {
    /// The width of the operand in bytes.
    #[inline]
    pub fn first_width(self) -> usize
        ensures { result ≡ first_width self }
    {
        match self {
            Shape::Nothing => 0,
            Shape::Whole8 => 1,
            Shape::Whole16 => 2,
            Shape::Whole24 => 3,
            Shape::Whole32 => 4,
            Shape::Whole64 => 8,
            Shape::Atom => 4,
            Shape::Arg => 2,
            Shape::Slot => 3,
            Shape::Aliased => 2,
            Shape::Num => 4,
            Shape::Argc => 2,
            Shape::Place => 3,
            Shape::Jump => 8,
        }
    }

    /// The width of a second operand in bytes, which only an aliased one has.
    #[inline]
    pub fn second_width(self) -> usize
        ensures { result ≡ second_width self }
    {
        match self {
            Shape::Nothing => 0,
            Shape::Whole8 => 0,
            Shape::Whole16 => 0,
            Shape::Whole24 => 0,
            Shape::Whole32 => 0,
            Shape::Whole64 => 0,
            Shape::Atom => 0,
            Shape::Arg => 0,
            Shape::Slot => 0,
            Shape::Aliased => 3,
            Shape::Num => 0,
            Shape::Argc => 0,
            Shape::Place => 0,
            Shape::Jump => 0,
        }
    }

    /// Whether the operand is a jump's distance.
    #[inline]
    pub fn is_jump(self) -> bool
        ensures { result ≡ is_jump_shape self }
    {
        match self {
            Shape::Nothing => false,
            Shape::Whole8 => false,
            Shape::Whole16 => false,
            Shape::Whole24 => false,
            Shape::Whole32 => false,
            Shape::Whole64 => false,
            Shape::Atom => false,
            Shape::Arg => false,
            Shape::Slot => false,
            Shape::Aliased => false,
            Shape::Num => false,
            Shape::Argc => false,
            Shape::Place => false,
            Shape::Jump => true,
        }
    }
}

impl Op {
    /// The opcode's byte.
    pub fn byte(self) -> u8
        ensures { result ≡ number_of self }
    {
        self as u8
    }

    /// The opcode of a byte; `None` where no opcode has it.
    pub fn of_byte(byte: u8) -> Option<Op>
        ensures { result ≡ op_at byte }
    {
        entry(&OPS, byte)
    }

    /// The opcode's row: its operand, and what it takes from the stack and gives.
    #[inline]
    pub fn row(self) -> OpRow
        ensures { result ≡ row_of self }
    {
        match self {
            Op::Undefined => make_row(Shape::Nothing, Count::Fixed(0), Count::Fixed(1)),
            Op::Null => make_row(Shape::Nothing, Count::Fixed(0), Count::Fixed(1)),
            Op::False => make_row(Shape::Nothing, Count::Fixed(0), Count::Fixed(1)),
            Op::True => make_row(Shape::Nothing, Count::Fixed(0), Count::Fixed(1)),
            Op::Zero => make_row(Shape::Nothing, Count::Fixed(0), Count::Fixed(1)),
            Op::One => make_row(Shape::Nothing, Count::Fixed(0), Count::Fixed(1)),
            Op::Hole => make_row(Shape::Nothing, Count::Fixed(0), Count::Fixed(1)),
            Op::Uninitialized => make_row(Shape::Nothing, Count::Fixed(0), Count::Fixed(1)),
            Op::Callee => make_row(Shape::Nothing, Count::Fixed(0), Count::Fixed(1)),
            Op::FunctionThis => make_row(Shape::Nothing, Count::Fixed(0), Count::Fixed(1)),
            Op::GlobalThis => make_row(Shape::Nothing, Count::Fixed(0), Count::Fixed(1)),
            Op::Arguments => make_row(Shape::Nothing, Count::Fixed(0), Count::Fixed(1)),
            Op::IsConstructing => make_row(Shape::Nothing, Count::Fixed(0), Count::Fixed(1)),
            Op::NewInit => make_row(Shape::Nothing, Count::Fixed(0), Count::Fixed(1)),
            Op::Exception => make_row(Shape::Nothing, Count::Fixed(0), Count::Fixed(1)),
            Op::Int8 => make_row(Shape::Whole8, Count::Fixed(0), Count::Fixed(1)),
            Op::Uint16 => make_row(Shape::Whole16, Count::Fixed(0), Count::Fixed(1)),
            Op::Uint24 => make_row(Shape::Whole24, Count::Fixed(0), Count::Fixed(1)),
            Op::Int32 => make_row(Shape::Whole32, Count::Fixed(0), Count::Fixed(1)),
            Op::Double => make_row(Shape::Whole64, Count::Fixed(0), Count::Fixed(1)),
            Op::String => make_row(Shape::Atom, Count::Fixed(0), Count::Fixed(1)),
            Op::Pos => make_row(Shape::Nothing, Count::Fixed(1), Count::Fixed(1)),
            Op::Neg => make_row(Shape::Nothing, Count::Fixed(1), Count::Fixed(1)),
            Op::BitNot => make_row(Shape::Nothing, Count::Fixed(1), Count::Fixed(1)),
            Op::Not => make_row(Shape::Nothing, Count::Fixed(1), Count::Fixed(1)),
            Op::Typeof => make_row(Shape::Nothing, Count::Fixed(1), Count::Fixed(1)),
            Op::TypeofExpr => make_row(Shape::Nothing, Count::Fixed(1), Count::Fixed(1)),
            Op::Void => make_row(Shape::Nothing, Count::Fixed(1), Count::Fixed(1)),
            Op::Inc => make_row(Shape::Nothing, Count::Fixed(1), Count::Fixed(1)),
            Op::Dec => make_row(Shape::Nothing, Count::Fixed(1), Count::Fixed(1)),
            Op::ToNumeric => make_row(Shape::Nothing, Count::Fixed(1), Count::Fixed(1)),
            Op::ToPropertyKey => make_row(Shape::Nothing, Count::Fixed(1), Count::Fixed(1)),
            Op::ToString => make_row(Shape::Nothing, Count::Fixed(1), Count::Fixed(1)),
            Op::Add => make_row(Shape::Nothing, Count::Fixed(2), Count::Fixed(1)),
            Op::Sub => make_row(Shape::Nothing, Count::Fixed(2), Count::Fixed(1)),
            Op::Mul => make_row(Shape::Nothing, Count::Fixed(2), Count::Fixed(1)),
            Op::Div => make_row(Shape::Nothing, Count::Fixed(2), Count::Fixed(1)),
            Op::Mod => make_row(Shape::Nothing, Count::Fixed(2), Count::Fixed(1)),
            Op::Pow => make_row(Shape::Nothing, Count::Fixed(2), Count::Fixed(1)),
            Op::BitOr => make_row(Shape::Nothing, Count::Fixed(2), Count::Fixed(1)),
            Op::BitXor => make_row(Shape::Nothing, Count::Fixed(2), Count::Fixed(1)),
            Op::BitAnd => make_row(Shape::Nothing, Count::Fixed(2), Count::Fixed(1)),
            Op::Lsh => make_row(Shape::Nothing, Count::Fixed(2), Count::Fixed(1)),
            Op::Rsh => make_row(Shape::Nothing, Count::Fixed(2), Count::Fixed(1)),
            Op::Ursh => make_row(Shape::Nothing, Count::Fixed(2), Count::Fixed(1)),
            Op::Eq => make_row(Shape::Nothing, Count::Fixed(2), Count::Fixed(1)),
            Op::Ne => make_row(Shape::Nothing, Count::Fixed(2), Count::Fixed(1)),
            Op::StrictEq => make_row(Shape::Nothing, Count::Fixed(2), Count::Fixed(1)),
            Op::StrictNe => make_row(Shape::Nothing, Count::Fixed(2), Count::Fixed(1)),
            Op::Lt => make_row(Shape::Nothing, Count::Fixed(2), Count::Fixed(1)),
            Op::Le => make_row(Shape::Nothing, Count::Fixed(2), Count::Fixed(1)),
            Op::Gt => make_row(Shape::Nothing, Count::Fixed(2), Count::Fixed(1)),
            Op::Ge => make_row(Shape::Nothing, Count::Fixed(2), Count::Fixed(1)),
            Op::In => make_row(Shape::Nothing, Count::Fixed(2), Count::Fixed(1)),
            Op::Instanceof => make_row(Shape::Nothing, Count::Fixed(2), Count::Fixed(1)),
            Op::GetElem => make_row(Shape::Nothing, Count::Fixed(2), Count::Fixed(1)),
            Op::StrictDelElem => make_row(Shape::Nothing, Count::Fixed(2), Count::Fixed(1)),
            Op::GetGName => make_row(Shape::Atom, Count::Fixed(0), Count::Fixed(1)),
            Op::BindGName => make_row(Shape::Atom, Count::Fixed(0), Count::Fixed(1)),
            Op::StrictSetGName => make_row(Shape::Atom, Count::Fixed(2), Count::Fixed(1)),
            Op::InitGLexical => make_row(Shape::Atom, Count::Fixed(1), Count::Fixed(1)),
            Op::ThrowSetConst => make_row(Shape::Atom, Count::Fixed(1), Count::Fixed(1)),
            Op::GetArg => make_row(Shape::Arg, Count::Fixed(0), Count::Fixed(1)),
            Op::SetArg => make_row(Shape::Arg, Count::Fixed(1), Count::Fixed(1)),
            Op::GetLocal => make_row(Shape::Slot, Count::Fixed(0), Count::Fixed(1)),
            Op::SetLocal => make_row(Shape::Slot, Count::Fixed(1), Count::Fixed(1)),
            Op::InitLexical => make_row(Shape::Slot, Count::Fixed(1), Count::Fixed(1)),
            Op::CheckLexical => make_row(Shape::Slot, Count::Fixed(1), Count::Fixed(1)),
            Op::GetAliasedVar => make_row(Shape::Aliased, Count::Fixed(0), Count::Fixed(1)),
            Op::SetAliasedVar => make_row(Shape::Aliased, Count::Fixed(1), Count::Fixed(1)),
            Op::InitAliasedLexical => make_row(Shape::Aliased, Count::Fixed(1), Count::Fixed(1)),
            Op::CheckAliasedLexical => make_row(Shape::Aliased, Count::Fixed(1), Count::Fixed(1)),
            Op::NewArray => make_row(Shape::Num, Count::Fixed(0), Count::Fixed(1)),
            Op::InitElemArray => make_row(Shape::Num, Count::Fixed(2), Count::Fixed(1)),
            Op::InitProp => make_row(Shape::Atom, Count::Fixed(2), Count::Fixed(1)),
            Op::InitPropGetter => make_row(Shape::Atom, Count::Fixed(2), Count::Fixed(1)),
            Op::InitPropSetter => make_row(Shape::Atom, Count::Fixed(2), Count::Fixed(1)),
            Op::InitElem => make_row(Shape::Nothing, Count::Fixed(3), Count::Fixed(1)),
            Op::InitElemGetter => make_row(Shape::Nothing, Count::Fixed(3), Count::Fixed(1)),
            Op::InitElemSetter => make_row(Shape::Nothing, Count::Fixed(3), Count::Fixed(1)),
            Op::MutateProto => make_row(Shape::Nothing, Count::Fixed(2), Count::Fixed(1)),
            Op::GetProp => make_row(Shape::Atom, Count::Fixed(1), Count::Fixed(1)),
            Op::StrictSetProp => make_row(Shape::Atom, Count::Fixed(2), Count::Fixed(1)),
            Op::StrictDelProp => make_row(Shape::Atom, Count::Fixed(1), Count::Fixed(1)),
            Op::StrictSetElem => make_row(Shape::Nothing, Count::Fixed(3), Count::Fixed(1)),
            Op::Call => make_row(Shape::Argc, Count::More(2), Count::Fixed(1)),
            Op::New => make_row(Shape::Argc, Count::More(3), Count::Fixed(1)),
            Op::Lambda => make_row(Shape::Num, Count::Fixed(0), Count::Fixed(1)),
            Op::JumpTarget => make_row(Shape::Nothing, Count::Fixed(0), Count::Fixed(0)),
            Op::LoopHead => make_row(Shape::Nothing, Count::Fixed(0), Count::Fixed(0)),
            Op::Goto => make_row(Shape::Jump, Count::Fixed(0), Count::Fixed(0)),
            Op::JumpIfFalse => make_row(Shape::Jump, Count::Fixed(1), Count::Fixed(0)),
            Op::JumpIfTrue => make_row(Shape::Jump, Count::Fixed(1), Count::Fixed(0)),
            Op::And => make_row(Shape::Jump, Count::Fixed(1), Count::Fixed(1)),
            Op::Or => make_row(Shape::Jump, Count::Fixed(1), Count::Fixed(1)),
            Op::Coalesce => make_row(Shape::Jump, Count::Fixed(1), Count::Fixed(1)),
            Op::Case => make_row(Shape::Jump, Count::Fixed(2), Count::Fixed(1)),
            Op::Default => make_row(Shape::Jump, Count::Fixed(1), Count::Fixed(0)),
            Op::Return => make_row(Shape::Nothing, Count::Fixed(1), Count::Fixed(0)),
            Op::SetRval => make_row(Shape::Nothing, Count::Fixed(1), Count::Fixed(0)),
            Op::RetRval => make_row(Shape::Nothing, Count::Fixed(0), Count::Fixed(0)),
            Op::Throw => make_row(Shape::Nothing, Count::Fixed(1), Count::Fixed(0)),
            Op::Try => make_row(Shape::Nothing, Count::Fixed(0), Count::Fixed(0)),
            Op::Iter => make_row(Shape::Nothing, Count::Fixed(1), Count::Fixed(1)),
            Op::MoreIter => make_row(Shape::Nothing, Count::Fixed(1), Count::Fixed(2)),
            Op::IsNoIter => make_row(Shape::Nothing, Count::Fixed(1), Count::Fixed(2)),
            Op::EndIter => make_row(Shape::Nothing, Count::Fixed(2), Count::Fixed(0)),
            Op::Debugger => make_row(Shape::Nothing, Count::Fixed(0), Count::Fixed(0)),
            Op::PushLexicalEnv => make_row(Shape::Num, Count::Fixed(0), Count::Fixed(0)),
            Op::PopLexicalEnv => make_row(Shape::Nothing, Count::Fixed(0), Count::Fixed(0)),
            Op::FreshenLexicalEnv => make_row(Shape::Nothing, Count::Fixed(0), Count::Fixed(0)),
            Op::GlobalOrEvalDeclInstantiation => make_row(
                Shape::Num,
                Count::Fixed(0),
                Count::Fixed(0),
            ),
            Op::Pop => make_row(Shape::Nothing, Count::Fixed(1), Count::Fixed(0)),
            Op::Dup => make_row(Shape::Nothing, Count::Fixed(1), Count::Fixed(2)),
            Op::Dup2 => make_row(Shape::Nothing, Count::Fixed(2), Count::Fixed(4)),
            Op::Swap => make_row(Shape::Nothing, Count::Fixed(2), Count::Fixed(2)),
            Op::Pick => make_row(Shape::Place, Count::More(1), Count::More(1)),
            Op::Unpick => make_row(Shape::Place, Count::More(1), Count::More(1)),
            Op::Rest => make_row(Shape::Nothing, Count::Fixed(0), Count::Fixed(1)),
            Op::PushVarEnv => make_row(Shape::Num, Count::Fixed(0), Count::Fixed(0)),
        }
    }

    /// What stands after the opcode's byte: the first column of its row.
    pub fn shape(self) -> Shape
        ensures { result ≡ shape_of self }
    {
        match self {
            Op::Undefined
            | Op::Null
            | Op::False
            | Op::True
            | Op::Zero
            | Op::One
            | Op::Hole
            | Op::Uninitialized
            | Op::Callee
            | Op::FunctionThis
            | Op::GlobalThis
            | Op::Arguments
            | Op::IsConstructing
            | Op::NewInit
            | Op::Exception
            | Op::Pos
            | Op::Neg
            | Op::BitNot
            | Op::Not
            | Op::Typeof
            | Op::TypeofExpr
            | Op::Void
            | Op::Inc
            | Op::Dec
            | Op::ToNumeric
            | Op::ToPropertyKey
            | Op::ToString
            | Op::Add
            | Op::Sub
            | Op::Mul
            | Op::Div
            | Op::Mod
            | Op::Pow
            | Op::BitOr
            | Op::BitXor
            | Op::BitAnd
            | Op::Lsh
            | Op::Rsh
            | Op::Ursh
            | Op::Eq
            | Op::Ne
            | Op::StrictEq
            | Op::StrictNe
            | Op::Lt
            | Op::Le
            | Op::Gt
            | Op::Ge
            | Op::In
            | Op::Instanceof
            | Op::GetElem
            | Op::StrictDelElem
            | Op::InitElem
            | Op::InitElemGetter
            | Op::InitElemSetter
            | Op::MutateProto
            | Op::StrictSetElem
            | Op::JumpTarget
            | Op::LoopHead
            | Op::Return
            | Op::SetRval
            | Op::RetRval
            | Op::Throw
            | Op::Try
            | Op::Iter
            | Op::MoreIter
            | Op::IsNoIter
            | Op::EndIter
            | Op::Debugger
            | Op::PopLexicalEnv
            | Op::FreshenLexicalEnv
            | Op::Pop
            | Op::Dup
            | Op::Dup2
            | Op::Swap
            | Op::Rest => Shape::Nothing,
            Op::Int8 => Shape::Whole8,
            Op::Uint16 => Shape::Whole16,
            Op::Uint24 => Shape::Whole24,
            Op::Int32 => Shape::Whole32,
            Op::Double => Shape::Whole64,
            Op::String
            | Op::GetGName
            | Op::BindGName
            | Op::StrictSetGName
            | Op::InitGLexical
            | Op::ThrowSetConst
            | Op::InitProp
            | Op::InitPropGetter
            | Op::InitPropSetter
            | Op::GetProp
            | Op::StrictSetProp
            | Op::StrictDelProp => Shape::Atom,
            Op::GetArg | Op::SetArg => Shape::Arg,
            Op::GetLocal | Op::SetLocal | Op::InitLexical | Op::CheckLexical => Shape::Slot,
            Op::GetAliasedVar
            | Op::SetAliasedVar
            | Op::InitAliasedLexical
            | Op::CheckAliasedLexical => Shape::Aliased,
            Op::NewArray
            | Op::InitElemArray
            | Op::Lambda
            | Op::PushLexicalEnv
            | Op::GlobalOrEvalDeclInstantiation
            | Op::PushVarEnv => Shape::Num,
            Op::Call | Op::New => Shape::Argc,
            Op::Pick | Op::Unpick => Shape::Place,
            Op::Goto
            | Op::JumpIfFalse
            | Op::JumpIfTrue
            | Op::And
            | Op::Or
            | Op::Coalesce
            | Op::Case
            | Op::Default => Shape::Jump,
        }
    }

    /// Whether the instruction is a jump.
    pub fn is_jump(self) -> bool
        ensures { result ≡ is_jump self }
    {
        self.shape().is_jump()
    }
}
