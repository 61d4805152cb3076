// The twelve forms, each with the parts that it has.
use refusals::Refusal;

#[derive(Clone, Copy)]
pub enum Form {
    SetLogic,
    SetOption,
    Comment,
    Assert,
    DefineFun,
    DeclareConst,
    DeclareFun,
    DeclareDatatype,
    CheckSat,
    GetModel,
    Reset,
    Exit,
}

impl From<u8> for Form {
    fn from(letter: u8) -> Form {
        match letter {
            b'1' => Form::SetLogic,
            b'2' => Form::SetOption,
            b'3' => Form::Comment,
            b'4' => Form::Assert,
            b'5' => Form::DefineFun,
            b'6' => Form::DeclareConst,
            b'7' => Form::DeclareFun,
            b'8' => Form::DeclareDatatype,
            b'9' => Form::CheckSat,
            b'a' => Form::GetModel,
            b'b' => Form::Reset,
            _ => Form::Exit,
        }
    }
}

// The parts in their order: a form takes those that it has, the lists at b and c with their ends.
#[derive(Clone, Copy)]
pub struct Parts<'a> {
    pub form: Form,
    pub a: &'a [u8],
    pub b: &'a [u8],
    pub ends: &'a [u64],
    pub c: &'a [u8],
    pub more: &'a [u64],
    pub d: &'a [u8],
}

pub fn write(parts: Parts<'_>, out: &mut [u8]) -> Result<usize, Refusal> {
    let Parts {
        form,
        a,
        b,
        ends,
        c,
        more,
        d,
    } = parts;
    match form {
        Form::SetLogic => script::set_logic(a, out),
        Form::SetOption => script::set_option(a, b, out),
        Form::Comment => script::comment(a, out),
        Form::Assert => script::assert(a, out),
        Form::DefineFun => script::define_fun(a, b, ends, c, d, out),
        Form::DeclareConst => script::declare_const(a, b, out),
        Form::DeclareFun => script::declare_fun(a, b, ends, c, out),
        Form::DeclareDatatype => script::declare_datatype(a, b, ends, c, more, out),
        Form::CheckSat => script::check_sat(out),
        Form::GetModel => script::get_model(out),
        Form::Reset => script::reset(out),
        Form::Exit => script::exit(out),
    }
}
