//! What the codes and the exit statuses mean that the program tells, for `jvm explain`. tools/codes.py writes
//! docs/CODES.md from this file.

use std::alloc::{AllocError, Global};

/// Codes with one letter in front, or statuses, and the numbers that they have.
struct Family {
    letter: &'static str,
    first: u32,
    last: u32,
}

/// All codes in the order in which a program meets them, and then the statuses.
const FAMILIES: [Family; 10] = [
    Family {
        letter: "J",
        first: 1,
        last: 9,
    },
    Family {
        letter: "O",
        first: 1,
        last: 6,
    },
    Family {
        letter: "C",
        first: 1,
        last: 11,
    },
    Family {
        letter: "A",
        first: 1,
        last: 5,
    },
    Family {
        letter: "L",
        first: 1,
        last: 12,
    },
    Family {
        letter: "P",
        first: 1,
        last: 4,
    },
    Family {
        letter: "F",
        first: 1,
        last: 10,
    },
    Family {
        letter: "N",
        first: 1,
        last: 7,
    },
    Family {
        letter: "H",
        first: 1,
        last: 4,
    },
    Family {
        letter: "",
        first: 0,
        last: 8,
    },
];

/// A refusal of a text (J).
fn text_meaning(number: u32) -> Option<&'static str> {
    let meaning = match number {
        1 => "A directive is unknown, or a statement is missing or stands where it may not.\n\
             Example: `.method` before `.super`, or an instruction outside a method.\n\
             The order is `.class` or `.interface`, `.super`, `.implements`, `.field`, `.method`. Where\n\
             something is missing, the line reported is that of the next statement, or one past the last.\n",
        2 => "The first word of a line is no instruction of the machine.\n\
             Example: `iaddd`, or `fadd`: there is no floating point.\n\
             Use a mnemonic of JVMS 6.5; strings, class constants, `jsr` and `multianewarray` are left out.\n",
        3 => "A statement has the wrong words: too few, too many, or one that is not of its kind.\n\
             Example: `iload x`, `getfield A/f` without a descriptor, a flag twice, `float` as a type.\n\
             Look at the statement's form; a label after the last instruction is for `.catch` alone.\n",
        4 => "A number is out of its range.\n\
             Example: `bipush 200`, which holds -128 to 127.\n\
             Take a wider form: `sipush`, `ldc`, `ldc2_w`.\n",
        5 => "A label is given twice in its method, or used and never given.\n\
             Example: `goto X` in a method without a line `X:`.\n\
             The line reported is that of the use, or of the second label.\n",
        6 => "A method does not end.\n\
             Example: a text that stops before `.end method`.\n\
             The line reported is that of the next `.method`, or one past the last line.\n",
        7 => "A method with code lacks `.limit stack` or `.limit locals`.\n\
             Example: a method with `return` alone.\n\
             The line reported is that of `.end method`. Both limits are wanted, also where they are 0.\n",
        8 =>
            "A byte is no ASCII, or a control byte other than a tab, a newline, or a return before one.\n\
             Example: an accented letter in a comment, or a class file given to `jvm asm`.\n\
             Save the text as ASCII.\n",
        9 => "There was no memory to read a text. It is shown as `jvm: memory`, with status 6.\n\
             Example: a process whose memory is limited, as by `ulimit -v`.\n\
             Raise the limit, or free memory.\n",
        _ => return None,
    };
    Some(meaning)
}

/// A refusal of code (O).
fn code_meaning(number: u32) -> Option<&'static str> {
    let meaning = match number {
        1 => "Code has a byte that begins no instruction of the machine.\n\
             Example: byte 0xff, or `jsr`; also `newarray` of a type and `wide` of an instruction that are\n\
             not in the profile.\n\
             Compile without what is left out: floating point, strings, invokedynamic, subroutines.\n",
        2 => "Code ends within an instruction.\n\
             Example: the byte of `sipush` and one byte more.\n\
             The class file is damaged: write it again.\n",
        3 => "A branch or a switch leads to a place where no instruction begins.\n\
             Example: a `goto` into the middle of a `sipush`.\n\
             The class file is damaged: write it again.\n",
        4 =>
            "A switch is malformed: its pad is not zero, its keys do not rise, or its range is empty.\n\
             Example: a `lookupswitch` with the keys 5, 2.\n\
             Sort the keys. In a text this is A4.\n",
        5 => "A method has no code, or more than 65,535 bytes of it.\n\
             Example: a `Code` attribute whose code has no byte.\n\
             Split the method.\n",
        6 => "There was no memory to read code. It is shown as `jvm: memory`, with status 6.\n\
             Example: a process whose memory is limited, as by `ulimit -v`.\n\
             Raise the limit, or free memory.\n",
        _ => return None,
    };
    Some(meaning)
}

/// A refusal of a class file (C).
fn class_file_meaning(number: u32) -> Option<&'static str> {
    let meaning = match number {
        1 => "A class file begins with other bytes than cafebabe.\n\
             Example: a text given to `jvm dis`.\n\
             Give texts to `asm`, and class files to `dis`.\n",
        2 => "A class file is of another version than 49.0.\n\
             Example: what javac writes without `-target`.\n\
             Set the version to 49.0; code of newer versions may also hold what the machine lacks.\n",
        3 => "A class file ends too early, or an item of it is longer than what is left.\n\
             Example: the first half of a class file.\n\
             The file is damaged or was cut: write it again.\n",
        4 => "Bytes follow the end of a class file.\n\
             Example: two files that were put together.\n\
             The file is damaged: write it again.\n",
        5 => "The constant pool has an entry of a kind that the machine does not know.\n\
             Example: a string, a float, a method handle.\n\
             Compile without strings, floating point and lambdas.\n",
        6 => "A number in a class file names no pool entry, or one of the wrong kind.\n\
             Example: a `getfield` whose operand is a method.\n\
             The file is damaged.\n",
        7 => "A name or a descriptor in the pool is none.\n\
             Example: a descriptor with F, D or Z, a name with a byte past 7f.\n\
             Use int for boolean; there is no floating point.\n",
        8 =>
            "An attribute has the wrong length, stands at the wrong place, or is there too often or not.\n\
             Example: a method without `Code` that is neither abstract nor native.\n\
             The file is damaged: write it again.\n",
        9 => "A constant pool is full: it has room for 65,534 entries.\n\
             Example: 32,768 different longs, each of which takes two.\n\
             Split the class. For a text this is A3.\n",
        10 => "There was no memory for a class file. It is shown as `jvm: memory`, with status 6.\n\
             Example: a process whose memory is limited, as by `ulimit -v`.\n\
             Raise the limit, or free memory.\n",
        11 => "Flags are unknown, or do not go together.\n\
             Example: a class that is final and abstract; an interface that is not abstract.\n\
             The file is damaged: write it again.\n",
        _ => return None,
    };
    Some(meaning)
}

/// A refusal to assemble a text (A).
fn assembly_meaning(number: u32) -> Option<&'static str> {
    let meaning = match number {
        1 => "A method of a text has no instruction, or more than 65,535 bytes of code.\n\
             Example: `.method public static main()V` with limits and `.end method` alone.\n\
             Write a `return`, or split the method.\n",
        2 => "A branch is longer than its two bytes can say: more than 32,767 bytes.\n\
             Example: `goto X` over 40,000 `nop`.\n\
             Use `goto_w`, or split the method.\n",
        3 =>
            "A class needs more than 65,534 entries in its constant pool, or another count is too great.\n\
             Example: 32,768 different numbers of `ldc2_w`, each of which takes two.\n\
             Split the class.\n",
        4 =>
            "The keys of a `lookupswitch` do not rise, or a `tableswitch` ends past the greatest int.\n\
             Example: keys 5, 2.\n\
             Sort the keys.\n",
        5 =>
            "There was no memory to assemble a text. It is shown as `jvm: memory`, with status 6.\n\
             Example: a process whose memory is limited, as by `ulimit -v`.\n\
             Raise the limit, or free memory.\n",
        _ => return None,
    };
    Some(meaning)
}

/// A refusal of a program (L).
fn program_meaning(number: u32) -> Option<&'static str> {
    let meaning = match number {
        1 => "Two classes have one name.\n\
             Example: a file that is named twice on the command line.\n\
             Name each file once.\n",
        2 => "A superclass or a superinterface is not among the classes.\n\
             Example: `.super Shape`, and no file of Shape on the command line.\n\
             Name all files that the program needs.\n",
        3 => "A class is its own superclass or superinterface, directly or through others.\n\
             Example: `.class A` with `.super A`.\n\
             Name another superclass.\n",
        4 => "A superclass is an interface or final, or a superinterface is none.\n\
             Example: `.super Runn` where Runn is an interface.\n\
             Interfaces stand after `.implements`, classes that are not final after `.super`.\n",
        5 => "A class has two fields, or two methods, of one name and descriptor.\n\
             Example: a line `.field x I` twice.\n\
             Rename one of the two.\n",
        6 =>
            "An instruction or an exception row names a class, a field or a method that is not there.\n\
             Example: `invokestatic A/f()V` where A has only `f(I)V`, or `f` is not static.\n\
             Look for the class's file, the descriptor, static against instance, interface against class,\n\
             `new` of an abstract class, the count of `invokeinterface`, a method of an array.\n",
        7 => "A row of an exception table is malformed.\n\
             Its start is not below its end, a bound is no instruction, or its class is no Throwable.\n\
             Example: `.catch all from X to X using Y`, or `.catch java/lang/Object from X to Y using Z`.\n\
             Put the labels in order, and catch a Throwable.\n",
        8 => "A program, a class or a method passes a limit.\n\
             There may be 256 classes, 256 instance fields in one with the inherited ones, and 4,096 units\n\
             of locals and stack in a method, which needs locals for its arguments.\n\
             Example: `.limit locals 1` in a static method `f(J)V`, whose long takes two.\n",
        9 => "The first class declares no static `main()V` with code.\n\
             Example: `main([Ljava/lang/String;)V`, which is Java's.\n\
             The file of the class with main comes first.\n",
        10 => "A class has a method that the machine does not take.\n\
             It is a `<clinit>` that is not a plain static `()V`, a native method, a static synchronized\n\
             method, or a synchronized `run()V` of a thread.\n\
             Example: `.method native f()V`.\n\
             Give the method code, and let it enter a monitor itself.\n",
        11 => "A class has the name of one of the machine's own, as java/lang/Object or vm/Sys.\n\
             Example: `.class vm/Sys`.\n\
             Rename the class.\n",
        12 =>
            "There was no memory to load a program. It is shown as `jvm: memory`, with status 6.\n\
             Example: a process whose memory is limited, as by `ulimit -v`.\n\
             Raise the limit, or free memory.\n",
        _ => return None,
    };
    Some(meaning)
}

/// A refusal of a world (P).
fn world_meaning(number: u32) -> Option<&'static str> {
    let meaning = match number {
        1 => "The heap has fewer than two cells, or more than 65,535 cells or 1,048,576 words.\n\
             Example: `--small 0 --medium 0 --large 0`.\n\
             Small cells have 4 words, medium ones 32, large ones 256.\n",
        2 => "`--steps` is not 1 to 16,777,215, or `--output` is more than 1,048,576.\n\
             Example: `--steps 0`.\n\
             Leave the option out, or take a number of its range.\n",
        3 => "There was no memory for a world. It is shown as `jvm: memory`, with status 6.\n\
             Example: a process whose memory is limited, as by `ulimit -v`.\n\
             Raise the limit, or free memory.\n",
        4 => "The frames with which main opens do not fit a thread: 256 frames, 4,096 units.\n\
             Above main's stand those of the initializers of its class and superclasses.\n\
             Example: a main with `.limit locals 4000` below a `<clinit>` with `.limit stack 200`.\n\
             Lower the limits.\n",
        _ => return None,
    };
    Some(meaning)
}

/// A fault of a program (F).
fn fault_meaning(number: u32) -> Option<&'static str> {
    let meaning = match number {
        1 => "An instruction takes a value from an empty stack.\n\
             Example: `iadd` after one `iconst_1`.\n\
             Push what the instruction takes.\n",
        2 => "An instruction pushes past the method's `.limit stack`.\n\
             Example: `iconst_1` with `.limit stack 0`.\n\
             Raise the limit.\n",
        3 => "A value is of the wrong kind: an int where a reference is wanted, half of a long.\n\
             Example: `dup` on a long.\n\
             Take the instruction for the value's kind, here `dup2`.\n",
        4 => "A local is past `.limit locals`, or is the upper half of a long.\n\
             Example: `iload 1` with `.limit locals 1`, or after `lstore 0`.\n\
             Raise the limit, or take another local.\n",
        5 => "Control runs past the last instruction of a method.\n\
             Example: a main whose last instruction is `nop`.\n\
             End the method with a return, a `goto` or `athrow`.\n",
        6 => "An object is of a class that the instruction cannot use.\n\
             Example: `getfield A/x I` on an object that is no A.\n\
             Look where the object comes from.\n",
        7 => "A return is not that of the method's descriptor.\n\
             Example: `ireturn` in `main()V`.\n\
             Take the return of the descriptor's result.\n",
        8 => "A 65th thread is started.\n\
             Example: a loop that starts 64 threads beside main's.\n\
             A thread that has ended keeps its place: let one thread do the work of several.\n",
        9 => "A call selects no method, or an abstract one.\n\
             Example: `invokeinterface` on an object whose class does not implement it.\n\
             Declare the method, with code and not private.\n",
        10 => "A thread enters one monitor more than 65,535 times.\n\
             Example: a loop with `monitorenter` and no `monitorexit`.\n\
             Leave a monitor as often as it is entered.\n",
        _ => return None,
    };
    Some(meaning)
}

/// A refusal of a journal (N).
fn journal_meaning(number: u32) -> Option<&'static str> {
    let meaning = match number {
        1 => "A journal's first line is not `JVMJ 1` or `JVMJ 2`.\n\
             Example: a class file in the journal's place.\n\
             `jvm replay` takes the journal first, and then the program's files.\n",
        2 => "A journal's line of the heap or of the limits is malformed or out of range.\n\
             Example: `heap 2 0`, which lacks a number.\n\
             Make the run again with `--journal`.\n",
        3 => "A row of a journal is malformed.\n\
             Example: two spaces in a row, or a worker that the journal does not have.\n\
             Rows are `ACTOR OUTCOME WORKER`, as `0 d 0` or `c d 0`.\n",
        4 =>
            "A journal's last line is not `end` and the number of its rows, or something follows it.\n\
             Example: a journal that was cut.\n\
             Make the run again with `--journal`.\n",
        5 =>
            "A row of a journal, or of turns, is not what the program does: its turn has another outcome or is refused.\n\
             Example: the journal of another program, or of an older build of it.\n\
             The row reported is the first one, counted from 1.\n",
        6 => "There was no memory for a journal. It is shown as `jvm: memory`, with status 6.\n\
             Example: a process whose memory is limited, as by `ulimit -v`.\n\
             Raise the limit, or free memory.\n",
        7 => "A journal's line `workers` is malformed, or not 1 to 9.\n\
             Example: `workers 10`.\n\
             Make the run again with `--journal`.\n",
        _ => return None,
    };
    Some(meaning)
}

/// A refusal of a hall (H).
fn hall_meaning(number: u32) -> Option<&'static str> {
    let meaning = match number {
        1 => "A hall wants 1 to 9 workers. The command line never asks for others.\n\
             Example: a caller in code with ten roles.\n\
             Give it fewer.\n",
        2 => "There was no memory for a hall. It is shown as `jvm: memory`, with status 6.\n\
             Example: a process whose memory is limited, as by `ulimit -v`.\n\
             Raise the limit, or free memory.\n",
        3 =>
            "A thread of the system could not be started. It is shown as `jvm: no thread`, with status 6.\n\
             Example: `--carriers 8` where the system lets a process start no thread.\n\
             Take `--carriers 1`, which starts none.\n",
        4 =>
            "The world that came back is not the one that was handed out. No call brings this about.\n\
             Example: none is known.\n\
             Please report it, with the program and its journal.\n",
        _ => return None,
    };
    Some(meaning)
}

/// An exit status.
fn status_meaning(number: u32) -> Option<&'static str> {
    let meaning = match number {
        0 => "The program ended and all its threads with it, or the file is written.\n\
             Example: `jvm run sum.j`, which prints its sum.\n",
        1 =>
            "All threads have ended, some by an exception that nothing caught; a line names each.\n\
             Example: `jvm: thread 0 ended by java/lang/ArithmeticException`.\n\
             Catch it by a `.catch` line, or mend what throws it.\n",
        2 =>
            "The input was refused: a text, a class file, a program, a world's numbers, a journal or turns.\n\
             Example: `jvm: sum.j: J5 at line 6`. Ask `jvm explain` for the code.\n",
        3 => "The program did what a verifier of class files would not let it do.\n\
             Example: `jvm: fault F1 in thread 0`. Ask `jvm explain` for the code.\n",
        4 =>
            "A limit was reached: `jvm: step limit`, `jvm: output limit`, or the end of `jvm explore` is `cut off`.\n\
             Example: a loop without end, or a print with `--output 0`.\n\
             Raise it by `--steps`, `--output` or `--states`.\n",
        5 => "The program is stuck: threads live, and each waits for another.\n\
             Example: two threads, each with a monitor that the other wants.\n\
             Let all threads enter monitors in one order.\n",
        6 =>
            "Memory ran out, a file could not be read or written, or a thread could not be started.\n\
             Example: `jvm: cannot read sum.j`, `jvm: memory`, `jvm: no thread`.\n\
             Look for the file, or at the limits of the system.\n",
        7 => "The command line is wrong: see `jvm --help`.\n\
             Example: `jvm run` without a file, or with `--gc 1001`.\n",
        8 =>
            "A run by `--check` differs from the ideal run of its program: `jvm: row 12 differs`.\n\
             It is proved that this can't be: please report it, with the files and the journal.\n",
        _ => return None,
    };
    Some(meaning)
}
/// The number of a code, of one or two digits.
fn number_in(digits: &[u8]) -> Option<u32> {
    match digits {
        [digit @ b'0'..=b'9'] => Some(u32::from(*digit - b'0')),
        [b'1', digit @ b'0'..=b'9'] => Some(u32::from(*digit - b'0') + 10),
        _ => None,
    }
}

/// What a code, as `J5`, or an exit status, as `4`, means and what to do about it, in up to six lines of text. `None`
/// where there is no such code.
fn meaning(code: &str) -> Option<&'static str> {
    match code.as_bytes() {
        [b'J', digits @ ..] => text_meaning(number_in(digits)?),
        [b'O', digits @ ..] => code_meaning(number_in(digits)?),
        [b'C', digits @ ..] => class_file_meaning(number_in(digits)?),
        [b'A', digits @ ..] => assembly_meaning(number_in(digits)?),
        [b'L', digits @ ..] => program_meaning(number_in(digits)?),
        [b'P', digits @ ..] => world_meaning(number_in(digits)?),
        [b'F', digits @ ..] => fault_meaning(number_in(digits)?),
        [b'N', digits @ ..] => journal_meaning(number_in(digits)?),
        [b'H', digits @ ..] => hall_meaning(number_in(digits)?),
        digits => status_meaning(number_in(digits)?),
    }
}

/// What a code or an exit status means and what to do about it, with the code in front, as `J5: A label is given ..`.
/// `None` where there is no such code, `AllocError` where memory runs out.
pub fn explained(alloc: Global, code: &str) -> Result<Option<String>, AllocError> {
    match meaning(code) {
        Some(text) => Ok(Some(format!(in alloc; "{code}: {text}")?)),
        None => Ok(None),
    }
}

/// Adds a line for a code: the code and the first line of what it means.
fn add_line(lines: &mut String, code: &str) -> Result<(), AllocError> {
    let Some(text) = meaning(code) else {
        return Ok(());
    };
    lines.push_str(code)?;
    lines.push_str(": ")?;
    lines.push_str(text.lines().next().unwrap_or(""))?;
    lines.push_str("\n")
}

/// A line for each code and status. `AllocError` where memory runs out.
pub fn all_codes(alloc: Global) -> Result<String, AllocError> {
    let mut lines = String::new(alloc);
    for family in &FAMILIES {
        for number in family.first..=family.last {
            let letter = family.letter;
            let code = format!(in alloc; "{letter}{number}")?;
            add_line(&mut lines, code.as_str())?;
        }
    }
    Ok(lines)
}
