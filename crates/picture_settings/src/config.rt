//! The settings that a renderer's configuration asks for.
//!
//! An option has the name of its setting (`Setting::name`). Its text is a decimal number; of
//! `module_mm` millimetres, with at most three digits after a point; of `dpi` with at most one; of
//! `at` two numbers, `X,Y`; of `inverted`, `compressed`, `cut` and `any_colors` `true` or `false`;
//! of `dark` and `light` a word that `Rgb::of_word` and `Ground::of_word` read; and of `title` and
//! `caption` the text itself.
ghost use Rattle.std.specs.Prelude.{◌≡◌, option_and_then, None, Some, IfOk, IfErr, OnOk};
ghost use Rattle.std.specs.Option.{option_copied};
ghost use Rattle.qrcode_core.specs.Plugins.{render_options};
ghost use Rattle.picture_settings.specs.ColorWords.{word_color, ground_word};
ghost use Rattle.picture_settings.specs.Configs.{flag_at, is_value, is_wrong, number_at, text_at};
ghost use Rattle.picture_settings.specs.Configs.{IsReadFrom, wrong_option};
ghost use Rattle.picture_settings.specs.OptionWords.{word_position, word_tenths, word_thousandths};
ghost use Rattle.picture_settings.specs.declared.settings.Setting.TheVariants.{ModuleMm, Dpi, At};
ghost use Rattle.picture_settings.specs.declared.settings.Setting.TheVariants.{Dark, Light};

use crate::colors::{Colors, Ground, Rgb};
use crate::draw_options::DrawOptions;
use crate::format::Format;
use crate::option_words::{
    flag_of_word, number_of_word, position_of_word, tenths_of_word, thousandths_of_word,
};
use crate::options::invalid_option;
use crate::settings::{Setting, Settings};
use qrcode_core::plugin::{PluginError, RenderConfig};
use std::alloc::Global;

/// All settings, in the order of `Settings`.
static SETTINGS: [Setting; 15] = [
    Setting::Scale,
    Setting::Quiet,
    Setting::ModuleMm,
    Setting::Dpi,
    Setting::Inverted,
    Setting::Title,
    Setting::Caption,
    Setting::At,
    Setting::Copies,
    Setting::Compressed,
    Setting::Feed,
    Setting::Cut,
    Setting::Dark,
    Setting::Light,
    Setting::AnyColors,
];

impl<'a> DrawOptions<'a> {
    ghost use Rattle.picture_settings.specs.Configs.{IsMadeFrom, RefusesName};
    ghost use Rattle.picture_settings.specs.Options.{IsOptionRefusal};

    /// Returns the options of a format that a configuration asks for.
    ///
    /// # Errors
    ///
    /// It fails with `InvalidConfig` and the name of an option: the first, in the order of
    /// `Settings`, that the format does not have or whose text is no value of it, or else the first
    /// that `DrawOptions::new` rejects; or with `OutOfMemory` if there is no memory for the name.
    pub fn of_config(
        alloc: Global,
        format: Format,
        config: &'a RenderConfig,
    ) -> Result<DrawOptions<'a>, PluginError>
        ensures made { IfOk result (IsMadeFrom format (render_options config.now)) }
        ensures refusal { IfErr result
            (IsOptionRefusal (RefusesName format (render_options config.now))) }
    {
        let settings = match settings_of_config(format, config) {
            Ok(settings) => settings,
            Err(setting) => return Err(invalid_option(alloc, setting)),
        };
        match DrawOptions::new(alloc, format, &settings) {
            Ok(options) => Ok(options),
            Err(setting) => Err(invalid_option(alloc, setting)),
        }
    }
}

/// Returns the settings that a configuration asks for, each of which the format has. They may be
/// out of their bounds, which `DrawOptions::new` tests.
///
/// # Errors
///
/// It fails with the first setting, in the order of `Settings`, whose option is there though the
/// format does not have it, whatever its text, or whose text is no value of it.
pub fn settings_of_config<'a>(
    format: Format,
    config: &'a RenderConfig,
) -> Result<Settings<'a>, Setting>
    ensures read { IfOk result (IsReadFrom (render_options config.now)) }
    ensures right { OnOk result (wrong_option format (render_options config.now) ≡ None) }
    ensures refusal { IfErr result
        (λ setting. wrong_option format (render_options config.now) ≡ Some setting) }
{
    match wrong_option(format, config) {
        Some(setting) => Err(setting),
        None => Ok(settings_read(config)),
    }
}

/// Returns the settings whose options have values.
fn settings_read(config: &RenderConfig) -> Settings<'_>
    ensures { IsReadFrom (render_options config.now) result }
{
    Settings {
        scale: number_at(config, Setting::Scale),
        quiet: number_at(config, Setting::Quiet),
        module_um: module_um(config),
        dpi_tenths: dpi_tenths(config),
        inverted: flag_at(config, Setting::Inverted),
        title: text_at(config, Setting::Title),
        caption: text_at(config, Setting::Caption),
        at: position(config),
        copies: number_at(config, Setting::Copies),
        compressed: flag_at(config, Setting::Compressed),
        feed: number_at(config, Setting::Feed),
        cut: flag_at(config, Setting::Cut),
        colors: Colors {
            dark: dark(config),
            light: light(config),
        },
        any_colors: flag_at(config, Setting::AnyColors),
    }
}

/// Returns the first option that is wrong.
fn wrong_option(format: Format, config: &RenderConfig) -> Option<Setting>
    ensures { result ≡ wrong_option format (render_options config.now) }
{
    for setting in &SETTINGS {
        if is_wrong(format, config, *setting) {
            return Some(*setting);
        }
    }
    None
}

/// Whether an option is there, though the format does not have it or its text is no value of it.
fn is_wrong(format: Format, config: &RenderConfig, setting: Setting) -> bool
    ensures { result ≡ is_wrong format (render_options config.now) setting }
{
    match text_at(config, setting) {
        Some(text) => !(format.has(setting) && is_value(setting, text)),
        None => false,
    }
}

/// Whether a text is a value of a setting.
fn is_value(setting: Setting, text: &str) -> bool
    ensures { result ≡ is_value setting text.now }
{
    match setting {
        Setting::Scale | Setting::Quiet | Setting::Copies | Setting::Feed => {
            number_of_word(text).is_some()
        }
        Setting::ModuleMm => thousandths_of_word(text).is_some(),
        Setting::Dpi => tenths_of_word(text).is_some(),
        Setting::Inverted | Setting::Compressed | Setting::Cut | Setting::AnyColors => {
            flag_of_word(text).is_some()
        }
        Setting::Title | Setting::Caption => true,
        Setting::At => position_of_word(text).is_some(),
        Setting::Dark => Rgb::of_word(text).is_some(),
        Setting::Light => Ground::of_word(text).is_some(),
    }
}

/// Returns the text of an option, if it is there.
fn text_at(config: &RenderConfig, setting: Setting) -> Option<&str>
    ensures { option_copied result ≡ text_at (render_options config.now) setting }
{
    config.option(setting.name())
}

/// Returns the number of an option.
fn number_at(config: &RenderConfig, setting: Setting) -> Option<usize>
    ensures { result ≡ number_at (render_options config.now) setting }
{
    number_of_word(text_at(config, setting)?)
}

/// Returns the width of a module in micrometres.
fn module_um(config: &RenderConfig) -> Option<usize>
    ensures { result
        ≡ option_and_then word_thousandths (text_at (render_options config.now) ModuleMm) }
{
    thousandths_of_word(text_at(config, Setting::ModuleMm)?)
}

/// Returns the number of pixels in ten inches.
fn dpi_tenths(config: &RenderConfig) -> Option<usize>
    ensures { result ≡ option_and_then word_tenths (text_at (render_options config.now) Dpi) }
{
    tenths_of_word(text_at(config, Setting::Dpi)?)
}

/// Returns the position on the label.
fn position(config: &RenderConfig) -> Option<(usize, usize)>
    ensures { result ≡ option_and_then word_position (text_at (render_options config.now) At) }
{
    position_of_word(text_at(config, Setting::At)?)
}

/// Returns the value of a flag, which is `false` if the option is not there.
fn flag_at(config: &RenderConfig, setting: Setting) -> bool
    ensures { result ≡ flag_at (render_options config.now) setting }
{
    match text_at(config, setting) {
        Some(text) => flag_of_word(text).unwrap_or(false),
        None => false,
    }
}

/// Returns the colour of the dark modules.
fn dark(config: &RenderConfig) -> Option<Rgb>
    ensures { result ≡ option_and_then word_color (text_at (render_options config.now) Dark) }
{
    Rgb::of_word(text_at(config, Setting::Dark)?)
}

/// Returns the ground.
fn light(config: &RenderConfig) -> Option<Ground>
    ensures { result ≡ option_and_then ground_word (text_at (render_options config.now) Light) }
{
    Ground::of_word(text_at(config, Setting::Light)?)
}
