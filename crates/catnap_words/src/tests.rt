use super::{Form, form_in, names_in};
use std::test::Fail;

#[test]
fn words_ask_for_a_run(rt: HostRuntime) -> Result<(), Fail> {
    let words = vec![in rt.alloc();
        String::from_str(rt.alloc(), "run")?,
        String::from_str(rt.alloc(), "a.cat")?,
        String::from_str(rt.alloc(), "0020")?,
    ]?;
    let Some(form) = form_in(words.as_slice()) else {
        return Err("no form".into());
    };
    assert_eq!(rt; form, Form::Run { steps: 20 });
    assert_eq!(rt; names_in(words.as_slice(), &form)[0].as_str(), "a.cat");
    Ok(())
}

#[test]
fn words_ask_for_an_object(rt: HostRuntime) -> Result<(), Fail> {
    let words = vec![in rt.alloc();
        String::from_str(rt.alloc(), "runobject")?,
        String::from_str(rt.alloc(), "a.obj")?,
        String::from_str(rt.alloc(), "7")?,
    ]?;
    let Some(form) = form_in(words.as_slice()) else {
        return Err("no form".into());
    };
    assert_eq!(rt; form, Form::RunObject { steps: 7 });
    Ok(())
}

#[test]
fn a_forecast_is_one_word_more(rt: HostRuntime) -> Result<(), Fail> {
    let words = vec![in rt.alloc();
        String::from_str(rt.alloc(), "check")?,
        String::from_str(rt.alloc(), "a.cat")?,
        String::from_str(rt.alloc(), "a.toml")?,
        String::from_str(rt.alloc(), "f.csv")?,
    ]?;
    assert_eq!(rt; form_in(words.as_slice()), Some(Form::CheckForecast));
    assert_eq!(rt; form_in(&words.as_slice()[0..3]), Some(Form::Check));
    Ok(())
}
