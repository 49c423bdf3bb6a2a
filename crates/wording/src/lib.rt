// The texts of the Rust (02: P1), written piece by piece into a lent slice. Nothing is asked of the image; the slice has room for the text.
#![tactic(auto)]

ghost use Rattle.std.specs.Prelude.{◌≡◌, ◌++◌, ◌+◌, ◌≤◌, length};
ghost use Rattle.rules.specs.Bytes.{name_at};
ghost use Rattle.rules.specs.Texts.{bytes, decimal, type_text, text_of};
ghost use Rattle.lookup.specs.Answers.{ty_of, fault_of};
ghost use Rattle.bounds.specs.Texts.{generated_as};
ghost use Rattle.pieces.specs.Lays.{Lays};

use lookup::{Fault, Ty};
use pieces::{put, put_number};

// The name at x.
fn put_name(out: &mut [u8], n: usize, img: &[u8], x: usize) -> usize
    requires { n + length (name_at img.now x) ≤ length out.old }
    ensures { Lays n (name_at img.now x) out.old out.new result }
{
    put(out, n, records::name(img, x))
}

// {:?} of a struct's type.
fn put_struct(out: &mut [u8], n: usize, img: &[u8], x: usize) -> usize
    requires { n + length (bytes "Struct(\"" ++ (name_at img.now x ++ bytes "\")")) ≤ length out.old }
    ensures { Lays n (bytes "Struct(\"" ++ (name_at img.now x ++ bytes "\")")) out.old out.new result }
{
    let a = put(out, n, b"Struct(\"");
    let b = put_name(out, a, img, x);
    put(out, b, b"\")")
}

// {:?} of a type.
fn put_type(out: &mut [u8], n: usize, img: &[u8], t: Ty) -> usize
    requires { n + length (type_text (ty_of img.now t)) ≤ length out.old }
    ensures { Lays n (type_text (ty_of img.now t)) out.old out.new result }
{
    match t {
        Ty::U64 => put(out, n, b"U64"),
        Ty::Bool => put(out, n, b"Bool"),
        Ty::Field => put(out, n, b"Field"),
        Ty::Void => put(out, n, b"Void"),
        Ty::Unknown => put(out, n, b"Unknown"),
        Ty::Struct(x) => put_struct(out, n, img, x),
    }
}

// A text that ends with a name.
fn named(out: &mut [u8], img: &[u8], s: &[u8], x: usize) -> usize
    requires { length (s.now ++ name_at img.now x) ≤ length out.old }
    ensures { Lays 0 (s.now ++ name_at img.now x) out.old out.new result }
{
    let a = put(out, 0, s);
    put_name(out, a, img, x)
}

// 001: expected {:?}, got {:?}
fn types(out: &mut [u8], img: &[u8], s: &[u8], a: Ty, b: Ty) -> usize
    requires { length (s.now ++ (type_text (ty_of img.now a) ++ (bytes ", got " ++ type_text (ty_of img.now b)))) ≤ length out.old }
    ensures { Lays 0 (s.now ++ (type_text (ty_of img.now a) ++ (bytes ", got " ++ type_text (ty_of img.now b)))) out.old out.new result }
{
    let k = put(out, 0, s);
    let l = put_type(out, k, img, a);
    let m = put(out, l, b", got ");
    put_type(out, m, img, b)
}

// 001: Struct {} has no field {}
fn no_field(out: &mut [u8], img: &[u8], s: usize, x: usize) -> usize
    requires { length (bytes "SemanticError: Struct " ++ (name_at img.now s ++ (bytes " has no field " ++ name_at img.now x))) ≤ length out.old }
    ensures { Lays 0 (bytes "SemanticError: Struct " ++ (name_at img.now s ++ (bytes " has no field " ++ name_at img.now x))) out.old out.new result }
{
    let k = put(out, 0, b"SemanticError: Struct ");
    let l = put_name(out, k, img, s);
    let m = put(out, l, b" has no field ");
    put_name(out, m, img, x)
}

// 001: Field {} type mismatch
fn init_type(out: &mut [u8], img: &[u8], x: usize) -> usize
    requires { length (bytes "SemanticError: Field " ++ (name_at img.now x ++ bytes " type mismatch")) ≤ length out.old }
    ensures { Lays 0 (bytes "SemanticError: Field " ++ (name_at img.now x ++ bytes " type mismatch")) out.old out.new result }
{
    let k = put(out, 0, b"SemanticError: Field ");
    let l = put_name(out, k, img, x);
    put(out, l, b" type mismatch")
}

// 001: Function {} expects {} args, got {}
fn arg_count(out: &mut [u8], img: &[u8], f: usize, a: usize, b: usize) -> usize
    requires { length (bytes "SemanticError: Function " ++ (name_at img.now f ++ (bytes " expects " ++ (decimal a ++ (bytes " args, got " ++ decimal b))))) ≤ length out.old }
    ensures { Lays 0 (bytes "SemanticError: Function " ++ (name_at img.now f ++ (bytes " expects " ++ (decimal a ++ (bytes " args, got " ++ decimal b))))) out.old out.new result }
{
    let i = put(out, 0, b"SemanticError: Function ");
    let j = put_name(out, i, img, f);
    let k = put(out, j, b" expects ");
    let l = put_number(out, k, a);
    let m = put(out, l, b" args, got ");
    put_number(out, m, b)
}

// 001: Arg {} type mismatch in {}
fn arg_type(out: &mut [u8], img: &[u8], i: usize, f: usize) -> usize
    requires { length (bytes "SemanticError: Arg " ++ (decimal i ++ (bytes " type mismatch in " ++ name_at img.now f))) ≤ length out.old }
    ensures { Lays 0 (bytes "SemanticError: Arg " ++ (decimal i ++ (bytes " type mismatch in " ++ name_at img.now f))) out.old out.new result }
{
    let k = put(out, 0, b"SemanticError: Arg ");
    let l = put_number(out, k, i);
    let m = put(out, l, b" type mismatch in ");
    put_name(out, m, img, f)
}

// 001: the text of a refusal of analysis
pub fn fault(out: &mut [u8], img: &[u8], f: Fault) -> usize
    requires { length (text_of (fault_of img.now f)) ≤ length out.old }
    ensures { Lays 0 (text_of (fault_of img.now f)) out.old out.new result }
{
    match f {
        Fault::Ident(_, x) => named(out, img, b"SemanticError: Undefined identifier: ", x),
        Fault::Target(_, x) => named(out, img, b"SemanticError: Undefined variable: ", x),
        Fault::Assign(_, a, b) => {
            types(
                out,
                img,
                b"SemanticError: Type mismatch in assign: expected ",
                a,
                b,
            )
        }
        Fault::Return(_, a, b) => {
            types(
                out,
                img,
                b"SemanticError: Type mismatch in return: expected ",
                a,
                b,
            )
        }
        Fault::NoField(_, s, x) => no_field(out, img, s, x),
        Fault::NotStruct(_) => put(out, 0, b"SemanticError: Field access on non-struct"),
        Fault::InitType(_, x) => init_type(out, img, x),
        Fault::InitField(_, x) => named(out, img, b"SemanticError: Unknown field ", x),
        Fault::NoStruct(_, x) => named(out, img, b"SemanticError: Undefined struct: ", x),
        Fault::ArgCount(_, f, a, b) => arg_count(out, img, f, a, b),
        Fault::ArgType(_, i, f) => arg_type(out, img, i, f),
        Fault::NoFunction(_, f) => named(out, img, b"SemanticError: Undefined function: ", f),
        Fault::Operands(_) => put(out, 0, b"SemanticError: Type mismatch in binary expression"),
    }
}

// 000: the text of a refusal of generation with that number; from 42 on the record at the place starts with the name that it says
pub fn generation(out: &mut [u8], img: &[u8], number: u64, place: usize) -> usize
    requires { length (text_of (generated_as img.now number place)) ≤ length out.old }
    ensures { Lays 0 (text_of (generated_as img.now number place)) out.old out.new result }
{
    let x = records::body(img, place);
    match number {
        40 => put(out, 0, b"CodegenError: main function not found"),
        41 => put(out, 0, b"RegisterExhausted"),
        42 => named(
            out,
            img,
            b"CodegenError: Undefined variable in codegen: ",
            x,
        ),
        43 => named(out, img, b"CodegenError: Undefined variable: ", x),
        44 => named(out, img, b"CodegenError: Unknown storage variable: ", x),
        45 => named(out, img, b"CodegenError: Unknown mapping variable: ", x),
        46 => named(
            out,
            img,
            b"CodegenError: Unknown storage variable in codegen: ",
            x,
        ),
        _ => named(out, img, b"CodegenError: Unknown mapping in codegen: ", x),
    }
}
