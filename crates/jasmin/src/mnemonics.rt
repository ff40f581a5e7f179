//! The mnemonics of instructions.
ghost use Rattle.std.specs.Prelude.{◌≡◌, map};
ghost use Rattle.model.specs.Texts.Mnemonics.{mnemonic_of};
ghost use Rattle.jasmin.specs.Words.{word_of, word_in};

use crate::tables::named;
use model::instructions::LocalAccess::{Load, Store};
use model::instructions::NumberOperation::{Binary, Convert, Negate};
use model::instructions::{
    Access, ClassOperation, Comparison, Conversion, ElementKind, FirstLocal, Identity, Invocation,
    Local, MonitorOperation, NumberKind, NumberOperation, Operator, SmallInt, SmallLong,
    StackOperation, Test, Width,
};
use model::mnemonics::Mnemonic::{Branch, Number};
use model::mnemonics::{LocalMnemonic, Mnemonic};
use model::values::Kind;

// the locals that a mnemonic can name
const ZERO: Local = Local::First(FirstLocal::Zero);

const ONE: Local = Local::First(FirstLocal::One);

const TWO: Local = Local::First(FirstLocal::Two);

const THREE: Local = Local::First(FirstLocal::Three);

/// The mnemonics by their families.
const MNEMONICS: [(&str, Mnemonic); 137] = [
    // constants
    ("nop", Mnemonic::Nop),
    ("aconst_null", Mnemonic::Null),
    ("iconst_m1", Mnemonic::SmallInt(SmallInt::MinusOne)),
    ("iconst_0", Mnemonic::SmallInt(SmallInt::Zero)),
    ("iconst_1", Mnemonic::SmallInt(SmallInt::One)),
    ("iconst_2", Mnemonic::SmallInt(SmallInt::Two)),
    ("iconst_3", Mnemonic::SmallInt(SmallInt::Three)),
    ("iconst_4", Mnemonic::SmallInt(SmallInt::Four)),
    ("iconst_5", Mnemonic::SmallInt(SmallInt::Five)),
    ("lconst_0", Mnemonic::SmallLong(SmallLong::Zero)),
    ("lconst_1", Mnemonic::SmallLong(SmallLong::One)),
    ("bipush", Mnemonic::Byte),
    ("sipush", Mnemonic::Short),
    ("ldc", Mnemonic::Int(Width::Narrow)),
    ("ldc_w", Mnemonic::Int(Width::Wide)),
    ("ldc2_w", Mnemonic::Long),
    // locals
    ("iload", Mnemonic::Local(LocalMnemonic::Load(Kind::Int))),
    ("lload", Mnemonic::Local(LocalMnemonic::Load(Kind::Long))),
    ("aload", Mnemonic::Local(LocalMnemonic::Load(Kind::Ref))),
    ("istore", Mnemonic::Local(LocalMnemonic::Store(Kind::Int))),
    ("lstore", Mnemonic::Local(LocalMnemonic::Store(Kind::Long))),
    ("astore", Mnemonic::Local(LocalMnemonic::Store(Kind::Ref))),
    ("iinc", Mnemonic::Local(LocalMnemonic::Increment)),
    ("iload_0", Mnemonic::FirstLocal(Load(Kind::Int, ZERO))),
    ("iload_1", Mnemonic::FirstLocal(Load(Kind::Int, ONE))),
    ("iload_2", Mnemonic::FirstLocal(Load(Kind::Int, TWO))),
    ("iload_3", Mnemonic::FirstLocal(Load(Kind::Int, THREE))),
    ("lload_0", Mnemonic::FirstLocal(Load(Kind::Long, ZERO))),
    ("lload_1", Mnemonic::FirstLocal(Load(Kind::Long, ONE))),
    ("lload_2", Mnemonic::FirstLocal(Load(Kind::Long, TWO))),
    ("lload_3", Mnemonic::FirstLocal(Load(Kind::Long, THREE))),
    ("aload_0", Mnemonic::FirstLocal(Load(Kind::Ref, ZERO))),
    ("aload_1", Mnemonic::FirstLocal(Load(Kind::Ref, ONE))),
    ("aload_2", Mnemonic::FirstLocal(Load(Kind::Ref, TWO))),
    ("aload_3", Mnemonic::FirstLocal(Load(Kind::Ref, THREE))),
    ("istore_0", Mnemonic::FirstLocal(Store(Kind::Int, ZERO))),
    ("istore_1", Mnemonic::FirstLocal(Store(Kind::Int, ONE))),
    ("istore_2", Mnemonic::FirstLocal(Store(Kind::Int, TWO))),
    ("istore_3", Mnemonic::FirstLocal(Store(Kind::Int, THREE))),
    ("lstore_0", Mnemonic::FirstLocal(Store(Kind::Long, ZERO))),
    ("lstore_1", Mnemonic::FirstLocal(Store(Kind::Long, ONE))),
    ("lstore_2", Mnemonic::FirstLocal(Store(Kind::Long, TWO))),
    ("lstore_3", Mnemonic::FirstLocal(Store(Kind::Long, THREE))),
    ("astore_0", Mnemonic::FirstLocal(Store(Kind::Ref, ZERO))),
    ("astore_1", Mnemonic::FirstLocal(Store(Kind::Ref, ONE))),
    ("astore_2", Mnemonic::FirstLocal(Store(Kind::Ref, TWO))),
    ("astore_3", Mnemonic::FirstLocal(Store(Kind::Ref, THREE))),
    // the operand stack
    ("pop", Mnemonic::Stack(StackOperation::Pop)),
    ("pop2", Mnemonic::Stack(StackOperation::Pop2)),
    ("dup", Mnemonic::Stack(StackOperation::Dup)),
    ("dup_x1", Mnemonic::Stack(StackOperation::DupX1)),
    ("dup_x2", Mnemonic::Stack(StackOperation::DupX2)),
    ("dup2", Mnemonic::Stack(StackOperation::Dup2)),
    ("dup2_x1", Mnemonic::Stack(StackOperation::Dup2X1)),
    ("dup2_x2", Mnemonic::Stack(StackOperation::Dup2X2)),
    ("swap", Mnemonic::Stack(StackOperation::Swap)),
    // operations on numbers
    ("iadd", Number(Binary(NumberKind::Int, Operator::Add))),
    ("isub", Number(Binary(NumberKind::Int, Operator::Sub))),
    ("imul", Number(Binary(NumberKind::Int, Operator::Mul))),
    ("idiv", Number(Binary(NumberKind::Int, Operator::Div))),
    ("irem", Number(Binary(NumberKind::Int, Operator::Rem))),
    ("ishl", Number(Binary(NumberKind::Int, Operator::Shl))),
    ("ishr", Number(Binary(NumberKind::Int, Operator::Shr))),
    ("iushr", Number(Binary(NumberKind::Int, Operator::Ushr))),
    ("iand", Number(Binary(NumberKind::Int, Operator::And))),
    ("ior", Number(Binary(NumberKind::Int, Operator::Or))),
    ("ixor", Number(Binary(NumberKind::Int, Operator::Xor))),
    ("ladd", Number(Binary(NumberKind::Long, Operator::Add))),
    ("lsub", Number(Binary(NumberKind::Long, Operator::Sub))),
    ("lmul", Number(Binary(NumberKind::Long, Operator::Mul))),
    ("ldiv", Number(Binary(NumberKind::Long, Operator::Div))),
    ("lrem", Number(Binary(NumberKind::Long, Operator::Rem))),
    ("lshl", Number(Binary(NumberKind::Long, Operator::Shl))),
    ("lshr", Number(Binary(NumberKind::Long, Operator::Shr))),
    ("lushr", Number(Binary(NumberKind::Long, Operator::Ushr))),
    ("land", Number(Binary(NumberKind::Long, Operator::And))),
    ("lor", Number(Binary(NumberKind::Long, Operator::Or))),
    ("lxor", Number(Binary(NumberKind::Long, Operator::Xor))),
    ("ineg", Number(Negate(NumberKind::Int))),
    ("lneg", Number(Negate(NumberKind::Long))),
    ("i2l", Number(Convert(Conversion::IntToLong))),
    ("l2i", Number(Convert(Conversion::LongToInt))),
    ("i2b", Number(Convert(Conversion::IntToByte))),
    ("i2c", Number(Convert(Conversion::IntToChar))),
    ("i2s", Number(Convert(Conversion::IntToShort))),
    ("lcmp", Number(NumberOperation::CompareLongs)),
    // branches
    ("ifeq", Branch(Test::Zero(Comparison::Equal))),
    ("ifne", Branch(Test::Zero(Comparison::NotEqual))),
    ("iflt", Branch(Test::Zero(Comparison::Less))),
    ("ifge", Branch(Test::Zero(Comparison::GreaterOrEqual))),
    ("ifgt", Branch(Test::Zero(Comparison::Greater))),
    ("ifle", Branch(Test::Zero(Comparison::LessOrEqual))),
    ("if_icmpeq", Branch(Test::Ints(Comparison::Equal))),
    ("if_icmpne", Branch(Test::Ints(Comparison::NotEqual))),
    ("if_icmplt", Branch(Test::Ints(Comparison::Less))),
    ("if_icmpge", Branch(Test::Ints(Comparison::GreaterOrEqual))),
    ("if_icmpgt", Branch(Test::Ints(Comparison::Greater))),
    ("if_icmple", Branch(Test::Ints(Comparison::LessOrEqual))),
    ("if_acmpeq", Branch(Test::Refs(Identity::Same))),
    ("if_acmpne", Branch(Test::Refs(Identity::Different))),
    ("ifnull", Branch(Test::Null(Identity::Same))),
    ("ifnonnull", Branch(Test::Null(Identity::Different))),
    ("goto", Branch(Test::Always(Width::Narrow))),
    ("goto_w", Branch(Test::Always(Width::Wide))),
    // calls and returns
    ("invokevirtual", Mnemonic::Invoke(Invocation::Virtual)),
    ("invokespecial", Mnemonic::Invoke(Invocation::Special)),
    ("invokestatic", Mnemonic::Invoke(Invocation::Static)),
    ("invokeinterface", Mnemonic::InvokeInterface),
    ("ireturn", Mnemonic::Return(Some(Kind::Int))),
    ("lreturn", Mnemonic::Return(Some(Kind::Long))),
    ("areturn", Mnemonic::Return(Some(Kind::Ref))),
    ("return", Mnemonic::Return(None)),
    // fields, objects and monitors
    ("getstatic", Mnemonic::Static(Access::Get)),
    ("putstatic", Mnemonic::Static(Access::Put)),
    ("getfield", Mnemonic::Field(Access::Get)),
    ("putfield", Mnemonic::Field(Access::Put)),
    ("new", Mnemonic::Class(ClassOperation::New)),
    ("checkcast", Mnemonic::Class(ClassOperation::CheckCast)),
    ("instanceof", Mnemonic::Class(ClassOperation::InstanceOf)),
    ("athrow", Mnemonic::Throw),
    ("monitorenter", Mnemonic::Monitor(MonitorOperation::Enter)),
    ("monitorexit", Mnemonic::Monitor(MonitorOperation::Exit)),
    // arrays
    ("newarray", Mnemonic::NewArray),
    ("anewarray", Mnemonic::NewArrayOf),
    ("arraylength", Mnemonic::ArrayLength),
    ("iaload", Mnemonic::ArrayLoad(ElementKind::Int)),
    ("laload", Mnemonic::ArrayLoad(ElementKind::Long)),
    ("aaload", Mnemonic::ArrayLoad(ElementKind::Ref)),
    ("baload", Mnemonic::ArrayLoad(ElementKind::Byte)),
    ("caload", Mnemonic::ArrayLoad(ElementKind::Char)),
    ("saload", Mnemonic::ArrayLoad(ElementKind::Short)),
    ("iastore", Mnemonic::ArrayStore(ElementKind::Int)),
    ("lastore", Mnemonic::ArrayStore(ElementKind::Long)),
    ("aastore", Mnemonic::ArrayStore(ElementKind::Ref)),
    ("bastore", Mnemonic::ArrayStore(ElementKind::Byte)),
    ("castore", Mnemonic::ArrayStore(ElementKind::Char)),
    ("sastore", Mnemonic::ArrayStore(ElementKind::Short)),
];

/// What a word says as a mnemonic.
#[tactic(auto, unfolding(model::specs::Texts::Mnemonics::mnemonic_of))]
pub fn mnemonic(word: &[u8]) -> Option<Mnemonic>
    ensures { result ≡ mnemonic_of word.now }
{
    named(&MNEMONICS, word)
}

/// The word of a mnemonic, empty where no word says it.
#[tactic(auto, unfolding(crate::specs::Words::word_of))]
pub fn word_of(mnemonic: Mnemonic) -> &'static str
    ensures { result.now ≡ word_of mnemonic }
{
    word_in(&MNEMONICS, mnemonic)
}

fn word_in(table: &[(&'static str, Mnemonic)], mnemonic: Mnemonic) -> &'static str
    ensures { result.now ≡ word_in (map (λ row. (row.0.now, row.1)) table.now) mnemonic }
{
    for (word, meant) in table {
        if *meant == mnemonic {
            return word;
        }
    }
    ""
}
