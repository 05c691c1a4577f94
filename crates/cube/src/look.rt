// The look: the settings alone, read off the header; nothing behind it is looked at.
ghost use Rattle.cube.specs.Areas.{Looks};

use header_reader::read::read_header;
use refusals::Refusal;
use settings::Settings;

// The settings of a file, or why its header is refused.
#[tactic(auto, using(crate::specs::LookLaws::look_settings, crate::specs::LookLaws::look_refused))]
pub fn look(file: &[u8]) -> Result<Settings, Refusal>
    ensures { Looks file.now result }
{
    let (settings, _) = read_header(file)?;
    Ok(settings)
}
